// The steps that a board in memory records of its calls.
ghost use Rattle.std.specs.Prelude.{◌≡◌, ◌+◌, ◌<◌, ◌≤◌, ◌^◌, [], ◌∷◌, ◌++◌, length, vec_len, vec_capacity};
ghost use Rattle.edge_board.specs.Events.{fills, sends};
ghost use Rattle.edge_board.specs.declared.event.BoardEvent.TheVariants.{Mark, Fill};

// What is done to a board in one step. A moment lies before and after each.
#[derive(Clone, Copy, Debug, PartialEq, Eq)]
pub(crate) enum BoardEvent {
    // So many positions from this one on may differ after a crash.
    Mark(u32, u32),
    // So many positions from this one on hold the octet.
    Fill(u32, u32, u8),
    // No position may differ after a crash.
    Sync,
    // An octet was sent.
    Sent(u8),
}

// Records that places become pending and hold the octet.
pub(crate) fn record_fill(events: &mut Vec<BoardEvent>, at: u32, count: u32, octet: u8)
    requires { vec_len events.old + 2 ≤ vec_capacity events.old }
    ensures events { events.new.items
        ≡ events.old.items ++ Mark at count ∷ Fill at count octet ∷ [] }
    ensures len { vec_len events.new ≡ vec_len events.old + 2 }
    ensures capacity { vec_capacity events.new ≡ vec_capacity events.old }
{
    events.push_reserved(BoardEvent::Mark(at, count));
    events.push_reserved(BoardEvent::Fill(at, count, octet));
}

// Records that places become pending and hold the octets, one after the other.
pub(crate) fn record_program(events: &mut Vec<BoardEvent>, at: u32, bytes: &[u8])
    requires room { vec_len events.old + 1 + length bytes.now ≤ vec_capacity events.old }
    requires fits { at + length bytes.now < 2 ^ 32 }
    ensures events { events.new.items
        ≡ events.old.items ++ Mark at (length bytes.now) ∷ fills at bytes.now }
    ensures len { vec_len events.new ≡ vec_len events.old + 1 + length bytes.now }
    ensures capacity { vec_capacity events.new ≡ vec_capacity events.old }
{
    events.push_reserved(BoardEvent::Mark(at, bytes.len() as u32));
    for (i, octet) in bytes.iter().enumerate() {
        events.push_reserved(BoardEvent::Fill(at + i as u32, 1, *octet));
    }
}

// Records that octets were sent, and keeps them.
pub(crate) fn record_send(events: &mut Vec<BoardEvent>, sent: &mut Vec<u8>, bytes: &[u8])
    requires room { vec_len events.old + length bytes.now ≤ vec_capacity events.old }
    requires sent { vec_len sent.old + length bytes.now ≤ vec_capacity sent.old }
    ensures events { events.new.items ≡ events.old.items ++ sends bytes.now }
    ensures len { vec_len events.new ≡ vec_len events.old + length bytes.now }
    ensures capacity { vec_capacity events.new ≡ vec_capacity events.old }
    ensures sent { sent.new.items ≡ sent.old.items ++ bytes.now }
    ensures sent_len { vec_len sent.new ≡ vec_len sent.old + length bytes.now }
    ensures sent_capacity { vec_capacity sent.new ≡ vec_capacity sent.old }
{
    for octet in bytes {
        events.push_reserved(BoardEvent::Sent(*octet));
        sent.push_reserved(*octet);
    }
}
