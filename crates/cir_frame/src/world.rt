//! What the whole program has made so far.
ghost use Rattle.std.specs.Prelude.{◌≡◌, ◌+◌, ◌*◌, List, [], length, map, take, bytes_eq};
ghost use Rattle.std.specs.List.{list_any};
ghost use Rattle.cir_meaning.specs.Limits.{nothing};
ghost use Rattle.cir_meaning.specs.Source.{Equation};
ghost use Rattle.cir_meaning.specs.Frame as M;
ghost use Rattle.cir_meaning.specs.Compile.{empty_world, group_size};
ghost use Rattle.cir_arrays.specs.Counted.{counts_of};
ghost use Rattle.cir_frame.specs.Shown.{group_by, group_of, row_of, sizes_of, world_of};

use cir_arrays::Counts;
use cir_ast::Text;
use cir_ast::program::Direction;
use gold_field::Constraint;
use std::alloc::Global;

/// Room for fewer than this many signals in each group.
pub const GROUP_SIZE: u32 = 1048576;

/// The groups in which the signals are numbered.
#[derive(Clone, Copy, PartialEq, Eq)]
pub enum Group {
    Outputs,
    PublicInputs,
    PrivateInputs,
    Others,
}

/// Which group a signal comes to by its declaration.
#[derive(Clone, Copy)]
pub enum Grouping<'p> {
    /// In main, whose public inputs have these names.
    Main(&'p [Text]),
    /// Inside, all signals come to the others.
    Inside,
}

/// How many signals each group has.
#[derive(Clone, Copy)]
pub struct Sizes {
    pub outputs: u64,
    pub public_inputs: u64,
    pub private_inputs: u64,
    pub others: u64,
}

/// A declared signal in the table of all signals.
pub struct Row {
    pub group: Group,
    /// The number of the instance that declares it.
    pub instance: u32,
    pub name: Text,
    pub dims: Vec<u64>,
}

// Written out, so that the proof of an owner sees one call and not the drop of each part.
impl Drop for Row {
    fn drop(self) {
        let Row {
            group: _group,
            instance: _instance,
            name: _name,
            dims: _dims,
        } = self;
    }
}

/// What the whole program has made so far. Rows, constraints and paths of instances stand in order
/// of creation.
pub struct World {
    pub rows: Vec<Row>,
    pub sizes: Sizes,
    pub constraints: Vec<Constraint>,
    pub instances: Vec<Text>,
    pub counts: Counts,
    /// What the statement at hand adds to the counts, which isn't counted yet.
    pub added: Counts,
}

// Written out for the same reason.
impl Drop for World {
    fn drop(self) {
        let World {
            rows: _rows,
            sizes: _sizes,
            constraints: _constraints,
            instances: _instances,
            counts: _counts,
            added: _added,
        } = self;
    }
}

/// How far the lists of a world have come.
#[derive(Clone, Copy)]
pub struct Marks {
    pub rows: usize,
    pub constraints: usize,
    pub instances: usize,
    pub sizes: Sizes,
}

impl Grouping<'_> {
    /// The group of a signal that is declared with this direction and name.
    pub fn of(&self, direction: Direction, name: &[u8]) -> Group
        ensures { group_of result ≡ group_by self.now direction name.now }
    {
        match self {
            Grouping::Inside => Group::Others,
            Grouping::Main(public) => match direction {
                Direction::Output => Group::Outputs,
                Direction::Inner => Group::Others,
                Direction::Input => {
                    if is_among(name, public) {
                        Group::PublicInputs
                    } else {
                        Group::PrivateInputs
                    }
                }
            },
        }
    }
}

fn is_among(name: &[u8], names: &[Text]) -> bool
    ensures { result ≡ list_any (λ n. bytes_eq n name.now) names.now }
{
    for other in names {
        if other.as_slice() == name {
            return true;
        }
    }
    false
}

impl Group {
    /// The place of the group among the groups.
    pub fn place(self) -> u32
        ensures { M.before_group group_size (group_of self) ≡ result * group_size }
    {
        match self {
            Group::Outputs => 0,
            Group::PublicInputs => 1,
            Group::PrivateInputs => 2,
            Group::Others => 3,
        }
    }
}

impl Sizes {
    /// No signals.
    pub const EMPTY: Sizes = Sizes {
        outputs: 0,
        public_inputs: 0,
        private_inputs: 0,
        others: 0,
    };

    /// How many signals this group has.
    pub fn of(&self, group: Group) -> u64
        ensures { result ≡ M.size_in (group_of group) (sizes_of self.now) }
    {
        match group {
            Group::Outputs => self.outputs,
            Group::PublicInputs => self.public_inputs,
            Group::PrivateInputs => self.private_inputs,
            Group::Others => self.others,
        }
    }

    /// That many more in the group.
    pub fn add(&mut self, group: Group, more: u64)
        ensures { sizes_of self.new ≡ M.more_in (group_of group) more (sizes_of self.old) }
    {
        match group {
            Group::Outputs => self.outputs = self.outputs.saturating_add(more),
            Group::PublicInputs => self.public_inputs = self.public_inputs.saturating_add(more),
            Group::PrivateInputs => self.private_inputs = self.private_inputs.saturating_add(more),
            Group::Others => self.others = self.others.saturating_add(more),
        }
    }
}

impl World {
    /// Nothing is made yet. Signal 0 has a cell.
    pub fn new(alloc: Global) -> World
        ensures world { world_of result [] ≡ empty_world }
        ensures added { counts_of result.added ≡ nothing }
        ensures constraints { result.constraints.items ≡ [] }
    {
        World {
            rows: Vec::new(alloc),
            sizes: Sizes::EMPTY,
            constraints: Vec::new(alloc),
            instances: Vec::new(alloc),
            counts: Counts {
                cells: 1,
                ..Counts::NOTHING
            },
            added: Counts::NOTHING,
        }
    }

    /// The constraints and the paths of the instances.
    pub fn into_lists(self) -> (Vec<Constraint>, Vec<Text>)
        ensures { result ≡ (self.constraints, self.instances) }
    {
        let World {
            rows: _,
            sizes: _,
            constraints,
            instances,
            counts: _,
            added: _,
        } = self;
        (constraints, instances)
    }

    /// The number that the next signal of the group gets.
    pub fn next_number(&self, group: Group) -> u128
        ensures { result ≡ 1 + M.before_group group_size (group_of group)
            + M.size_in (group_of group) (sizes_of self.now.sizes) }
    {
        let before = u64::from(group.place()) * u64::from(GROUP_SIZE);
        1 + u128::from(before) + u128::from(self.sizes.of(group))
    }

    /// Where the lists end now, for `restore`.
    pub fn marks(&self) -> Marks
        ensures rows { result.rows ≡ length self.now.rows.items }
        ensures constraints { result.constraints ≡ length self.now.constraints.items }
        ensures instances { result.instances ≡ length self.now.instances.items }
        ensures sizes { result.sizes ≡ self.now.sizes }
    {
        Marks {
            rows: self.rows.len(),
            constraints: self.constraints.len(),
            instances: self.instances.len(),
            sizes: self.sizes,
        }
    }

    /// Takes back all that was made since, but not what was counted.
    pub fn restore(&mut self, marks: &Marks)
        ensures world { (es : List Equation) → world_of self.new es
            ≡ record (world_of self.old es) {
              rows = take marks.now.rows (map row_of self.old.rows.items);
              sizes = sizes_of marks.now.sizes;
              instances = take marks.now.instances self.old.instances.items;
            } }
        ensures constraints { self.new.constraints.items
            ≡ take marks.now.constraints self.old.constraints.items }
        ensures added { self.new.added ≡ self.old.added }
    {
        self.rows.truncate(marks.rows);
        self.constraints.truncate(marks.constraints);
        self.instances.truncate(marks.instances);
        self.sizes = marks.sizes;
    }
}
