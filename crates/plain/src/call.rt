// The calls by which a play goes on.

// `Go` makes the sheet's choice for the house, the side that the sheet answers for; `Reply(k)` makes
// move `k` for the guest, the other side.
#[derive(Clone, Copy, PartialEq, Eq, Debug)]
pub enum Call {
    Go,
    Reply(usize),
}
