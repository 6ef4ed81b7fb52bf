//! What holds of every tree.

ghost use Rattle.std.specs.Prelude.{◌≡◌, ◌<◌, ◌^◌, ℕ, List, slice_index_or, []};
ghost use Rattle.lig_merkle.specs.Merkle.{PathLeadsToRoot};
ghost use Rattle.lig_merkle.specs.Shared.{SharedNodesLeadToRoot};
ghost use Rattle.lig_merkle.specs.Binding.{OpeningsBind, SharedOpeningsBind};

/// A leaf, its index and its path lead to the root, in every tree.
pub fn path_leads_to_root()
    ensures { PathLeadsToRoot }
{}

/// Opened leaves, with the nodes that they share, lead to the root, in every tree.
pub fn shared_nodes_lead_to_root()
    ensures { SharedNodesLeadToRoot }
{}

/// Two openings of one root that have different columns at one place hash, on one of the levels,
/// two different messages with one SHA-256 digest: each with its path, or several with shared
/// nodes.
pub fn openings_bind()
    ensures one { OpeningsBind }
    ensures several { SharedOpeningsBind }
{}
