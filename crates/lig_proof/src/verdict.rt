/// What an auditor says of a proof: the first test that fails, in this order, or that none does.
#[derive(Clone, Copy, PartialEq, Eq)]
pub enum Verdict {
    Accepted,
    /// The number of public values isn't the relation's.
    PublicCount,
    /// The bytes are no proof. The offset is that of the first byte that is wrong.
    Malformed { offset: u64 },
    /// This opened column, counted from 0 as they stand in the proof, doesn't lead to the root. It
    /// is 0 where columns share their nodes.
    BadPath { opened: u32 },
    /// The rows aren't codewords.
    Proximity,
    /// The values don't solve the linear system, by the sum over the message points.
    LinearSum,
    /// The polynomial of the linear system isn't that of the opened columns.
    LinearColumn,
    /// Some product of values isn't what it has to be, at a message point.
    QuadZero,
    /// The polynomial of the products isn't that of the opened columns.
    QuadColumn,
}
