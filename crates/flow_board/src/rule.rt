ghost use Rattle.flow_board.specs.Views.{first, after_split, cut_from, joined_with, spent};
ghost use Rattle.flow_board.specs.Rule.{Ruled};
ghost use Rattle.flow_board.specs.Plays.{read_play, publish_play, release_play, take_play};
ghost use Rattle.flow_board.specs.Plays.{finish_play, refuse_play, look_play};

use crate::answers::Answers;
use crate::view::View;
use atomic_table::{Join, Play, Split, TableRule};
use std::marker::PhantomData;
use std::snapshot::Snapshot;

/// A counter word once its strand is taken, which is above every count.
pub const TAKEN: u64 = 4294967296;

/// The rule of the board's words and views.
pub struct Order<A>(PhantomData<A>);

impl<A: Answers> TableRule<u32, View, Snapshot<A>> for Order<A> {
    ghost holds = { λ key. Ruled (A.flow key.value) };

    ghost first = { λ key. first (A.flow key.value) };
}

// Names for the kinds of step, which the table's calls are given: what each tells its caller stands
// in specs/Plays.antt.
pub struct Halves;

impl Split<View> for Halves {
    ghost left = { after_split };

    ghost right = { cut_from };
}

pub struct Both;

impl Join<View> for Both {
    ghost both = { joined_with };

    ghost spent = { spent };
}

pub struct Read;

impl Play<u32, View> for Read {
    ghost then = { read_play };
}

pub struct Publish;

impl Play<u32, View> for Publish {
    ghost then = { publish_play };
}

pub struct Release;

impl Play<u32, View> for Release {
    ghost then = { release_play };
}

pub struct Take;

impl Play<u32, View> for Take {
    ghost then = { take_play };
}

pub struct Finish;

impl Play<u32, View> for Finish {
    ghost then = { finish_play };
}

pub struct Refuse;

impl Play<u32, View> for Refuse {
    ghost then = { refuse_play };
}

pub struct Look;

impl Play<u32, View> for Look {
    ghost then = { look_play };
}
