//! Whether the names of assignments have homes, and their calls keys.
ghost use Rattle.std.specs.Prelude.{◌≡◌, [], OnOk};
ghost use Rattle.std.specs.List.{AllByRecursion};
ghost use Rattle.cir_ast.specs.Tree.{as_accessors, bare_assign, place_accessors};
ghost use Rattle.cir_emit.specs.Sourced as H;
ghost use Rattle.cir_meaning.specs.Texts.{indices_of};
ghost use Rattle.cir_meaning.specs.Writing.{plain};
ghost use Rattle.wit_lower.specs.Homes as L;
ghost use Rattle.wit_emit.specs.Grounds.{ground_of};
ghost use Rattle.wit_sourced.specs.Shown.{homes_of};

use crate::lack::Lack;
use crate::names::{Arrays, has_end};
use crate::values::{has, has_place};
use cir_ast::program::{Accessor, Assign, Place};
use wit_emit::{Front, Ground};
use wit_sourced::Scope;

fn has_indices<A: Arrays>(
    arrays: &A,
    ground: &Ground,
    scope: &Scope,
    accessors: &[Accessor],
) -> Result<(), Lack>
    ensures { OnOk result (AllByRecursion (H.HasAll (A.there arrays.now) (ground_of ground.now)
        (homes_of scope.now.homes.items)) (indices_of (as_accessors accessors.now))) }
{
    for accessor in accessors {
        if let Accessor::Index(e) = accessor {
            has(arrays, ground, scope, e)?;
        }
    }
    Ok(())
}

/// A place that is written.
fn has_target<A: Arrays>(
    arrays: &A,
    ground: &Ground,
    scope: &Scope,
    place: &Place,
) -> Result<(), Lack>
    ensures end { OnOk result (H.EndHas (A.there arrays.now) (homes_of scope.now.homes.items)
        (L.Named place.now.meant)) }
    ensures indices { OnOk result (AllByRecursion (H.HasAll (A.there arrays.now)
        (ground_of ground.now) (homes_of scope.now.homes.items))
        (indices_of (place_accessors place.now))) }
{
    has_end(arrays, scope, Front::Named(place.meant))?;
    has_indices(arrays, ground, scope, place.accessors.as_slice())
}

/// A place that is read and written.
fn has_changed<A: Arrays>(
    arrays: &A,
    ground: &Ground,
    scope: &Scope,
    place: &Place,
) -> Result<(), Lack>
    ensures end { OnOk result (H.EndHas (A.there arrays.now) (homes_of scope.now.homes.items)
        (L.Named place.now.meant)) }
    ensures indices { OnOk result (AllByRecursion (H.HasAll (A.there arrays.now)
        (ground_of ground.now) (homes_of scope.now.homes.items))
        (indices_of (place_accessors place.now))) }
    ensures read { OnOk result (H.PlaceHas (A.there arrays.now) (ground_of ground.now)
        (homes_of scope.now.homes.items) (L.Named place.now.meant) []
        (place_accessors place.now)) }
{
    has_target(arrays, ground, scope, place)?;
    has_place(
        arrays,
        ground,
        scope,
        place.meant,
        place.accessors.as_slice(),
    )
}

/// An assignment.
pub fn has_assign<A: Arrays>(
    arrays: &A,
    ground: &Ground,
    scope: &Scope,
    a: &Assign,
) -> Result<(), Lack>
    ensures { OnOk result (H.PlainHas (A.there arrays.now) (ground_of ground.now)
        (homes_of scope.now.homes.items) (plain (bare_assign a.now))) }
{
    match a {
        Assign::Set(place, e) => {
            has_target(arrays, ground, scope, place)?;
            has(arrays, ground, scope, e)
        }
        Assign::Compound(place, _, e) => {
            has_changed(arrays, ground, scope, place)?;
            has(arrays, ground, scope, e)
        }
        Assign::Increment(place) => has_changed(arrays, ground, scope, place),
        Assign::Decrement(place) => has_changed(arrays, ground, scope, place),
        Assign::Left(_, _, _) => Ok(()),
    }
}
