ghost use Rattle.std.specs.Prelude.{◌≡◌};
ghost use Rattle.circom_batch.specs.Items.{is_witness, without_feed};

use items::Items;

/// What a line of inputs comes to.
#[derive(Drop)]
pub enum Item {
    /// The bytes of the file of its values.
    Witness(Items<u8>),
    /// The line of its refusal, without its line feed.
    Refused(Items<u8>),
}

impl Item {
    /// Whether it has values.
    pub fn is_witness(&self) -> bool
        ensures { result ≡ is_witness self.now }
    {
        match self {
            Item::Witness(_) => true,
            Item::Refused(_) => false,
        }
    }
}

/// A printed line without its line feed.
pub fn without_feed(mut line: Vec<u8>) -> Items<u8>
    ensures { result ≡ without_feed line.items }
{
    line.truncate(line.len().saturating_sub(1));
    Items::of(line)
}
