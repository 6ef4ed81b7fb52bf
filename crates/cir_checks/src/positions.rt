//! Where statements and expressions stand, and which may not stand there.
ghost use Rattle.std.specs.Prelude.{◌≡◌};
ghost use Rattle.cir_checks.specs.Answers.{Tells};
ghost use Rattle.cir_checks.specs.Uses.{inward, on_the_right, room_fault};
ghost use Rattle.cir_checks.specs.Statements.{inside, in_loop, value_room, other_room, in_function};
ghost use Rattle.cir_checks.specs.Statements.{only_in_template, declaration_fault};
ghost use Rattle.cir_checks.specs.Statements.{signal_place_fault};

use crate::calls::unless;
use crate::stop::{Checked, Stop};
use cir_ast::program::{Binary, Direction};
use cir_ast::{Form, Kind};

/// Whether an anonymous component may stand where an expression stands.
#[derive(Clone, Copy)]
pub enum Room {
    /// In the value of a signal, a side of `===` and an input of another one.
    Allowed,
    /// Elsewhere in a template.
    Misplaced,
    /// In a function, and in the arguments of main.
    Barred,
}

const ANONYMOUS_PLACE: Kind = Kind::NotInProfile {
    form: Form::AnonymousPlace,
};

pub(crate) const DECLARATION_PLACE: Kind = Kind::NotInProfile {
    form: Form::DeclarationPlace,
};

pub(crate) const LOG_PLACE: Kind = Kind::NotInProfile {
    form: Form::LogPlace,
};

impl Room {
    /// In an index, a dimension or an argument, right of `&&` and `||`, and in the branches of
    /// `?:`.
    pub(crate) fn inward(self) -> Room
        ensures { result ≡ inward self }
    {
        match self {
            Room::Barred => Room::Barred,
            _ => Room::Misplaced,
        }
    }

    pub(crate) fn on_the_right(self, operator: Binary) -> Room
        ensures { result ≡ on_the_right operator self }
    {
        match operator {
            Binary::And | Binary::Or => self.inward(),
            _ => self,
        }
    }

    pub(crate) fn fault(self) -> Checked
        ensures { Tells result (room_fault self) }
    {
        match self {
            Room::Allowed => Ok(()),
            Room::Misplaced => Err(Stop::At(ANONYMOUS_PLACE)),
            Room::Barred => Err(Stop::At(Kind::WrongKind)),
        }
    }
}

/// Where a statement stands: in a function or in a template; and there in its outermost block, in
/// an inner one, or in a loop.
#[derive(Clone, Copy)]
pub enum Position {
    InFunction,
    Outermost,
    Inner,
    Looped,
}

impl Position {
    /// One block further in.
    pub(crate) fn inside(self) -> Position
        ensures { result ≡ inside self }
    {
        match self {
            Position::Outermost => Position::Inner,
            _ => self,
        }
    }

    pub(crate) fn in_loop(self) -> Position
        ensures { result ≡ in_loop self }
    {
        match self {
            Position::InFunction => Position::InFunction,
            _ => Position::Looped,
        }
    }

    /// In the value of a signal, and in a side of `===`.
    pub(crate) fn value_room(self) -> Room
        ensures { result ≡ value_room self }
    {
        match self {
            Position::InFunction => Room::Barred,
            _ => Room::Allowed,
        }
    }

    pub(crate) fn other_room(self) -> Room
        ensures { result ≡ other_room self }
    {
        match self {
            Position::InFunction => Room::Barred,
            _ => Room::Misplaced,
        }
    }

    pub(crate) fn in_function(self) -> bool
        ensures { result ≡ in_function self }
    {
        matches!(self, Position::InFunction)
    }

    pub(crate) fn only_in_template(self) -> Checked
        ensures { Tells result (only_in_template self) }
    {
        unless(!self.in_function(), Kind::WrongKind)
    }

    /// The fault of a declaration of components or inner signals there.
    pub(crate) fn declaration_fault(self) -> Checked
        ensures { Tells result (declaration_fault self) }
    {
        match self {
            Position::InFunction => Err(Stop::At(Kind::WrongKind)),
            Position::Looped => Err(Stop::At(DECLARATION_PLACE)),
            _ => Ok(()),
        }
    }

    /// The fault of a declaration of signals there.
    pub(crate) fn signal_place_fault(self, direction: Direction) -> Checked
        ensures { Tells result (signal_place_fault self direction) }
    {
        match (self, direction) {
            (Position::Inner, Direction::Input) => Err(Stop::At(DECLARATION_PLACE)),
            (Position::Inner, Direction::Output) => Err(Stop::At(DECLARATION_PLACE)),
            _ => self.declaration_fault(),
        }
    }
}
