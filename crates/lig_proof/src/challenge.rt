use gold_field::Gold;
use items::Items;
use lig_merkle::Hash;

/// How many columns a proof opens.
pub const OPENED: u32 = 96;

/// What the verifier would draw before the polynomials are sent. Each list has repetition 0 and
/// then repetition 1.
#[derive(Drop)]
pub struct Challenges {
    /// The key that the numbers are drawn from.
    pub first: Hash,
    /// A number for each row, in the test that the rows are close to codewords.
    pub alpha: Items<Gold>,
    /// A number for each equation of the linear system.
    pub r: Items<Gold>,
    /// A number for each row of products.
    pub rho: Items<Gold>,
}
