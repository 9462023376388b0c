// What signed data is to say.

/// What signed data of one signer is to say, but for its signature (RFC 5652, section 5).
#[derive(Clone, Copy, Debug)]
pub struct Draft<'a> {
    /// The type of the content: the contents of its identifier, at most 64 octets.
    pub content_type: &'a [u8],
    /// The front of the content, at most 6 octets, as the head of an element.
    pub front: &'a [u8],
    /// The rest of the content, at most 16,777,216 octets. So neither has to be copied to stand behind
    /// the other.
    pub content: &'a [u8],
    /// The certificates, whole elements, one after the other, at most 67,108,864 octets. Where there
    /// are none the set isn't written.
    pub certificates: &'a [u8],
    /// The key identifier of the signer, at most 64 octets.
    pub signer: &'a [u8],
    /// The signed attributes, each a whole element, in any order, at most 30,000 octets together.
    pub attributes: &'a [Vec<u8>],
}
