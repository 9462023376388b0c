// The input of `sigcheck`.
ghost use Rattle.std.specs.Prelude.{◌≡◌, option_map};
ghost use Rattle.der_core.specs.Reads.{Reads, Answers};
ghost use Rattle.fwload_top.specs.Sigcheck.{triple_text, IsTriple};
ghost use Rattle.fwload_top.specs.TripleReading.{view, fields_of, triple_of};

use der_core::{Cursor, tags};

// A key, a message and a signature, each as its octets.
#[derive(Clone, Copy, Debug)]
pub(crate) struct Triple<'a> {
    pub(crate) key: &'a [u8],
    pub(crate) message: &'a [u8],
    pub(crate) signature: &'a [u8],
}

// The triple whose text the octets are.
pub(crate) fn read_triple(input: &[u8]) -> Option<Triple<'_>>
    ensures { Reads triple_text IsTriple input.now (option_map view result) }
{
    read_whole(input)
}

#[tactic(auto, unfolding(crate::specs::TripleReading::triple_of))]
fn read_whole(input: &[u8]) -> Option<Triple<'_>>
    ensures { Answers view result (triple_of input.now) }
{
    let mut items = Cursor::new(input);
    let triple = read_fields(items.tagged(tags::SEQUENCE)?)?;
    if items.at_end() { Some(triple) } else { None }
}

#[tactic(auto, unfolding(crate::specs::TripleReading::fields_of))]
fn read_fields(fields: &[u8]) -> Option<Triple<'_>>
    ensures { Answers view result (fields_of fields.now) }
{
    let mut fields = Cursor::new(fields);
    let key = fields.tagged(tags::OCTET_STRING)?;
    let message = fields.tagged(tags::OCTET_STRING)?;
    let signature = fields.tagged(tags::OCTET_STRING)?;
    if fields.at_end() {
        Some(Triple {
            key,
            message,
            signature,
        })
    } else {
        None
    }
}
