ghost use Rattle.std.specs.Prelude.{◌≡◌, ◌-◌, ◌^◌, ◌≤◌, IfSome};
ghost use Rattle.lms_verify.specs.Kinds.{chain_count, checksum_shift, height, lms_number, ots_number, width};

/// A kind of LMS tree over SHA-256 with values of 32 octets, by its height (RFC 8554, section 5.1).
#[derive(Clone, Copy, Debug, PartialEq, Eq)]
pub enum LmsKind {
    H5,
    H10,
    H15,
    H20,
    H25,
}

// A row of the table of LMS kinds.
#[derive(Clone, Copy)]
struct LmsRow {
    number: u32,
    height: u32,
}

impl LmsKind {
    fn row(self) -> LmsRow
        ensures number { result.number ≡ lms_number self }
        ensures height { result.height ≡ height self }
    {
        let (number, height) = match self {
            LmsKind::H5 => (5, 5),
            LmsKind::H10 => (6, 10),
            LmsKind::H15 => (7, 15),
            LmsKind::H20 => (8, 20),
            LmsKind::H25 => (9, 25),
        };
        LmsRow { number, height }
    }

    /// The typecode that stands in keys and signatures (RFC 8554, section 5.1).
    pub fn number(self) -> u32
        ensures value { result ≡ lms_number self }
    {
        self.row().number
    }

    /// The height h of the tree, which has 2^h leaves (RFC 8554, section 5.1).
    pub fn height(self) -> u32
        ensures value { result ≡ height self }
        ensures small { result ≤ 25 }
    {
        self.row().height
    }

    /// The count of leaves, 2^h, which is also the number of the first leaf's node.
    pub fn leaf_count(self) -> u32
        ensures value { result ≡ 2 ^ height self }
        ensures small { result ≤ 2 ^ 25 }
    {
        1 << self.height()
    }

    /// The kind of this typecode.
    pub fn from_number(number: u32) -> Option<LmsKind>
        ensures read { IfSome result (λ kind. lms_number kind ≡ number) }
        ensures found { (kind : LmsKind) → lms_number kind ≡ number → result ≡ Some kind }
    {
        match number {
            5 => Some(LmsKind::H5),
            6 => Some(LmsKind::H10),
            7 => Some(LmsKind::H15),
            8 => Some(LmsKind::H20),
            9 => Some(LmsKind::H25),
            _ => None,
        }
    }
}

/// A kind of LM-OTS over SHA-256 with values of 32 octets, by the bits of a digit (RFC 8554, section
/// 4.1).
#[derive(Clone, Copy, Debug, PartialEq, Eq)]
pub enum OtsKind {
    W1,
    W2,
    W4,
    W8,
}

// A row of the table of LM-OTS kinds.
#[derive(Clone, Copy)]
struct OtsRow {
    number: u32,
    width: usize,
    chains: usize,
    shift: u32,
}

impl OtsKind {
    fn row(self) -> OtsRow
        ensures number { result.number ≡ ots_number self }
        ensures width { result.width ≡ width self }
        ensures chains { result.chains ≡ chain_count self }
        ensures shift { result.shift ≡ checksum_shift self }
    {
        let (number, width, chains, shift) = match self {
            OtsKind::W1 => (1, 1, 265, 7),
            OtsKind::W2 => (2, 2, 133, 6),
            OtsKind::W4 => (3, 4, 67, 4),
            OtsKind::W8 => (4, 8, 34, 0),
        };
        OtsRow {
            number,
            width,
            chains,
            shift,
        }
    }

    /// The typecode that stands in keys and signatures (RFC 8554, section 4.1).
    pub fn number(self) -> u32
        ensures value { result ≡ ots_number self }
    {
        self.row().number
    }

    /// The width w of a digit, in bits (RFC 8554, section 4.1).
    pub fn width(self) -> usize
        ensures value { result ≡ width self }
    {
        self.row().width
    }

    /// The count p of chains, each of which has one value in a signature (RFC 8554, section 4.1).
    pub fn chain_count(self) -> usize
        ensures value { result ≡ chain_count self }
    {
        self.row().chains
    }

    /// The greatest digit, 2^w - 1, which is also the last place of a chain.
    pub fn last_place(self) -> u8
        ensures value { result ≡ 2 ^ width self - 1 }
    {
        match self {
            OtsKind::W1 => 1,
            OtsKind::W2 => 3,
            OtsKind::W4 => 15,
            OtsKind::W8 => 255,
        }
    }

    // The left shift ls of the checksum, in bits.
    pub(crate) fn checksum_shift(self) -> u32
        ensures { result ≡ checksum_shift self }
    {
        self.row().shift
    }

    /// The kind of this typecode.
    pub fn from_number(number: u32) -> Option<OtsKind>
        ensures read { IfSome result (λ ots. ots_number ots ≡ number) }
        ensures found { (ots : OtsKind) → ots_number ots ≡ number → result ≡ Some ots }
    {
        match number {
            1 => Some(OtsKind::W1),
            2 => Some(OtsKind::W2),
            3 => Some(OtsKind::W4),
            4 => Some(OtsKind::W8),
            _ => None,
        }
    }
}
