ghost use Rattle.std.specs.Prelude.{◌==◌, if◌then◌else◌, nat_lt, not, ◌≡◌, ◌+◌, ◌<◌, ◌≤◌, ◌^◌, ◌-◌};
ghost use Rattle.std.specs.Prelude.{Some, Ok, length, slice_get, IfOk};
ghost use Rattle.gold_field.specs.Operators.{binary_of};
ghost use Rattle.wit_code.specs.Code.{IsWellFormed, Names};
ghost use Rattle.wit_code.specs.Seen.{seen, Follows, IsThere, NextFits, stands_of, AnswersFit};
ghost use Rattle.wit_code.specs.Seen.{IsOutcome, ParamsFit, TakesNoMemory};
ghost use Rattle.wit_code.specs.Table.{RunsTo, act, call, code_of, go_on, in_frame, jump_to, leave};
ghost use Rattle.wit_code.specs.Table.{outcome_of, pay, put, put_result, slot_of, start_of};
ghost use Rattle.wit_code.specs.Table.{turn_of, unless, written_with};

use crate::code::{Op, Proc, Stop};
use crate::frames::{Frames, Resume, Running};
use crate::room::Room;
use gold_field::{Gold, Op2, binary, unary};
use std::alloc::{AllocError, AllocFailed, Global};
use std::mem::replace;

/// At most so many calls are open at once.
pub const MAX_OPEN_CALLS: usize = 256;

/// The machine that runs a step's code.
pub struct Machine;

/// The state of a run.
#[derive(Drop)]
pub struct Run {
    running: Running,
    place: usize,
    frames: Frames,
    units: u64,
    written: Vec<Gold>,
}

/// Where an instruction leads: on in the same code, perhaps into other code, or to the end.
pub enum Flow {
    Stays,
    Moves,
    Ends,
}

impl From<AllocError> for Stop {
    ghost use Rattle.wit_code.specs.declared.code.Stop.TheVariants.{OutOfMemory};
    ghost use Rattle.std.specs.Prelude.{◌≡◌};

    ghost from_gives = { λ _ e. e ≡ OutOfMemory };

    fn from(_: AllocError) -> Stop {
        Stop::OutOfMemory
    }
}

impl<T: Drop> From<AllocFailed<T>> for Stop {
    ghost use Rattle.wit_code.specs.declared.code.Stop.TheVariants.{OutOfMemory};
    ghost use Rattle.std.specs.Prelude.{◌≡◌};

    ghost from_gives = { λ _ e. e ≡ OutOfMemory };

    fn from(_: AllocFailed<T>) -> Stop {
        Stop::OutOfMemory
    }
}

impl Run {
    fn start(alloc: Global, room: Room, code: &Proc, fuel: u64) -> Result<Run, AllocError>
        ensures { IfOk result (λ r. seen r ≡ start_of code.now fuel) }
    {
        let frames = Frames::over(room, code.slots as usize)?;
        Ok(Run {
            running: Running::Own,
            place: 0,
            frames,
            units: fuel,
            written: Vec::new(alloc),
        })
    }

    #[inline(always)]
    fn step(&mut self, procs: &[Proc], reads: &[Gold], body: &[Op]) -> Result<Flow, Stop>
        requires answers { AnswersFit self.old.frames.open_calls }
        requires procs { ParamsFit procs.now }
        requires names { NextFits procs.now (length reads.now) body.now self.old }
        ensures { Follows self.old result self.new
            (act procs.now reads.now (slice_get body.now self.old.place) (seen self.old)) }
    {
        if body.len() <= self.place {
            return Ok(self.leave(Gold::ZERO));
        }
        let op = body[self.place];
        self.perform(procs, reads, op)
    }

    #[inline(always)]
    fn perform(&mut self, procs: &[Proc], reads: &[Gold], op: Op) -> Result<Flow, Stop>
        requires answers { AnswersFit self.old.frames.open_calls }
        requires procs { ParamsFit procs.now }
        requires names { Names procs.now (stands_of (length reads.now) self.old.running)
            (length self.old.frames.slots) op }
        requires place { self.old.place < 2 ^ 64 - 1 }
        ensures { Follows self.old result self.new
            (act procs.now reads.now (Some op) (seen self.old)) }
    {
        match op {
            Op::Const(d, v) => Ok(self.put(d, v)),
            Op::Move(d, a) => Ok(self.put(d, self.slot(a))),
            Op::Read(d, i) => Ok(self.put(d, reads[i as usize])),
            Op::Un(op, d, a) => Ok(self.put(d, unary(op, self.slot(a)))),
            Op::Bin(op, d, a, b) => self.apply(op, d, a, b),
            Op::Bound(a, n) => self.bound(a, n),
            Op::Load(d, base, a) => self.load(d, base, a),
            Op::Store(base, a, b) => self.store(base, a, b),
            Op::Jump(to) => Ok(self.jump(to)),
            Op::JumpZero(a, to) => Ok(self.jump_zero(a, to)),
            Op::Turn => self.turn(),
            Op::Call(f, first, d) => self.call(&procs[f as usize], f, first, d),
            Op::Return(a) => Ok(self.leave(self.slot(a))),
            Op::Check(a, b) => self.check(a, b),
            Op::Assert(a) => self.assert(a),
            Op::Write(a) => self.write(a),
        }
    }

    #[inline(always)]
    fn slot(&self, i: u32) -> Gold
        requires { i < length self.now.frames.slots }
        ensures { result ≡ slot_of (seen self.now) i }
    {
        self.frames.get(i as usize)
    }

    #[inline(always)]
    fn jump(&mut self, to: u32) -> Flow
        ensures { Follows self.old (Ok result) self.new (jump_to to (seen self.old)) }
    {
        self.place = to as usize;
        Flow::Stays
    }

    #[inline(always)]
    fn on(&mut self) -> Flow
        requires { self.old.place < 2 ^ 64 - 1 }
        ensures { Follows self.old (Ok result) self.new (go_on (seen self.old)) }
    {
        self.place += 1;
        Flow::Stays
    }

    #[inline(always)]
    fn put(&mut self, d: u32, v: Gold) -> Flow
        requires slot { d < length self.old.frames.slots }
        requires place { self.old.place < 2 ^ 64 - 1 }
        ensures { Follows self.old (Ok result) self.new (put d v (seen self.old)) }
    {
        self.frames.set(d as usize, v);
        self.place += 1;
        Flow::Stays
    }

    #[inline(always)]
    fn apply(&mut self, op: Op2, d: u32, a: u32, b: u32) -> Result<Flow, Stop>
        requires slots { (d < length self.old.frames.slots) × (a < length self.old.frames.slots)
            × (b < length self.old.frames.slots) }
        requires place { self.old.place < 2 ^ 64 - 1 }
        ensures next { Follows self.old result self.new
            (put_result d (binary_of op (slot_of (seen self.old) a) (slot_of (seen self.old) b))
            (seen self.old)) }
        ensures memory { TakesNoMemory result }
    {
        match binary(op, self.slot(a), self.slot(b)) {
            Some(v) => Ok(self.put(d, v)),
            None => Err(Stop::ZeroDivisor),
        }
    }

    #[inline(always)]
    fn bound(&mut self, a: u32, n: u32) -> Result<Flow, Stop>
        requires slot { a < length self.old.frames.slots }
        requires place { self.old.place < 2 ^ 64 - 1 }
        ensures next { Follows self.old result self.new
            (unless Stop.IndexOut (nat_lt (slot_of (seen self.old) a) n) (go_on (seen self.old))) }
        ensures memory { TakesNoMemory result }
    {
        if self.slot(a).get() < n as u64 {
            Ok(self.on())
        } else {
            Err(Stop::IndexOut)
        }
    }

    #[inline(always)]
    fn load(&mut self, d: u32, base: u32, a: u32) -> Result<Flow, Stop>
        requires slots { (d < length self.old.frames.slots) × (a < length self.old.frames.slots) }
        requires place { self.old.place < 2 ^ 64 - 1 }
        ensures next { let s = seen self.old in
            Follows self.old result self.new
            (unless Stop.IndexOut (in_frame s (base + slot_of s a))
            (put d (slot_of s (base + slot_of s a)) s)) }
        ensures memory { TakesNoMemory result }
    {
        let at = self.indexed(base, a);
        if at < self.frames.width() {
            let v = self.frames.get(at);
            Ok(self.put(d, v))
        } else {
            Err(Stop::IndexOut)
        }
    }

    #[inline(always)]
    fn store(&mut self, base: u32, a: u32, b: u32) -> Result<Flow, Stop>
        requires slots { (a < length self.old.frames.slots) × (b < length self.old.frames.slots) }
        requires place { self.old.place < 2 ^ 64 - 1 }
        ensures next { let s = seen self.old in
            Follows self.old result self.new
            (unless Stop.IndexOut (in_frame s (base + slot_of s a))
            (put (base + slot_of s a) (slot_of s b) s)) }
        ensures memory { TakesNoMemory result }
    {
        let at = self.indexed(base, a);
        if at < self.frames.width() {
            let v = self.slot(b);
            self.frames.set(at, v);
            Ok(self.on())
        } else {
            Err(Stop::IndexOut)
        }
    }

    // A slot's number is below p, and p + 2^32 - 2 fits a word.
    #[inline(always)]
    fn indexed(&self, base: u32, a: u32) -> usize
        requires { a < length self.now.frames.slots }
        ensures { result ≡ base + slot_of (seen self.now) a }
    {
        base as usize + self.slot(a).get() as usize
    }

    #[inline(always)]
    fn jump_zero(&mut self, a: u32, to: u32) -> Flow
        requires slot { a < length self.old.frames.slots }
        requires place { self.old.place < 2 ^ 64 - 1 }
        ensures { let s = seen self.old in
            Follows self.old (Ok result) self.new (if slot_of s a == 0 then jump_to to s
            else go_on s) }
    {
        if self.slot(a) == Gold::ZERO {
            self.jump(to)
        } else {
            self.on()
        }
    }

    #[inline(always)]
    fn turn(&mut self) -> Result<Flow, Stop>
        requires place { self.old.place < 2 ^ 64 - 1 }
        ensures next { Follows self.old result self.new (turn_of (seen self.old)) }
        ensures memory { TakesNoMemory result }
    {
        if self.units == 0 {
            return Err(Stop::FuelSpent);
        }
        self.units -= 1;
        Ok(self.on())
    }

    #[inline(always)]
    fn call(&mut self, callee: &Proc, f: u32, first: u32, d: u32) -> Result<Flow, Stop>
        requires params { first + callee.now.params ≤ length self.old.frames.slots }
        requires callee { callee.now.params ≤ callee.now.slots }
        requires place { self.old.place < 2 ^ 64 - 1 }
        ensures { Follows self.old result self.new
            (pay (seen self.old) (call callee.now f first d (seen self.old))) }
    {
        let Some(units) = self.units.checked_sub(1) else {
            return Err(Stop::FuelSpent);
        };
        if self.frames.depth() >= MAX_OPEN_CALLS {
            return Err(Stop::TooDeep);
        }
        let resume = Resume {
            running: self.running,
            place: self.place + 1,
            answer: d,
        };
        self.frames.open(
            resume,
            first as usize,
            callee.params as usize,
            callee.slots as usize,
        )?;
        self.units = units;
        self.running = Running::Called(f);
        self.place = 0;
        Ok(Flow::Moves)
    }

    // The answer of the running call, or the end of the step's own code.
    #[inline(always)]
    fn leave(&mut self, v: Gold) -> Flow
        requires { AnswersFit self.old.frames.open_calls }
        ensures { Follows self.old (Ok result) self.new (leave v (seen self.old)) }
    {
        let Some(resume) = self.frames.close() else {
            return Flow::Ends;
        };
        self.frames.set(resume.answer as usize, v);
        self.running = resume.running;
        self.place = resume.place;
        Flow::Moves
    }

    #[inline(always)]
    fn check(&mut self, a: u32, b: u32) -> Result<Flow, Stop>
        requires slots { (a < length self.old.frames.slots) × (b < length self.old.frames.slots) }
        requires place { self.old.place < 2 ^ 64 - 1 }
        ensures next { let s = seen self.old in
            Follows self.old result self.new
            (unless Stop.ConstraintFails (slot_of s a == slot_of s b) (go_on s)) }
        ensures memory { TakesNoMemory result }
    {
        if self.slot(a) == self.slot(b) {
            Ok(self.on())
        } else {
            Err(Stop::ConstraintFails)
        }
    }

    #[inline(always)]
    fn assert(&mut self, a: u32) -> Result<Flow, Stop>
        requires slot { a < length self.old.frames.slots }
        requires place { self.old.place < 2 ^ 64 - 1 }
        ensures next { let s = seen self.old in
            Follows self.old result self.new
            (unless Stop.AssertFails (not (slot_of s a == 0)) (go_on s)) }
        ensures memory { TakesNoMemory result }
    {
        if self.slot(a).get() == 0 {
            Err(Stop::AssertFails)
        } else {
            Ok(self.on())
        }
    }

    #[inline(always)]
    fn write(&mut self, a: u32) -> Result<Flow, Stop>
        requires slot { a < length self.old.frames.slots }
        requires place { self.old.place < 2 ^ 64 - 1 }
        ensures { Follows self.old result self.new
            (written_with (slot_of (seen self.old) a) (seen self.old)) }
    {
        let v = self.slot(a);
        self.written.push(v)?;
        Ok(self.on())
    }
}

impl Machine {
    /// Runs a step's code on what it reads, with a budget of units, and gives what it writes, in
    /// order.
    pub fn run(
        alloc: Global,
        procs: &[Proc],
        code: &Proc,
        reads: &[Gold],
        fuel: u64,
    ) -> Result<Vec<Gold>, Stop>
        requires { IsWellFormed procs.now (length reads.now) code.now }
        ensures table { IsOutcome result (RunsTo procs.now code.now reads.now fuel) }
        ensures outcome { IsOutcome result (λ o. o ≡ outcome_of procs.now code.now reads.now fuel) }
    {
        Machine::run_in(alloc, &mut Room::new(alloc), procs, code, reads, fuel)
    }

    /// The same in a room that runs hand on: then the time goes by what the run does, and not by
    /// how long the step's frame is. After a stop the room is empty.
    pub fn run_in(
        alloc: Global,
        room: &mut Room,
        procs: &[Proc],
        code: &Proc,
        reads: &[Gold],
        fuel: u64,
    ) -> Result<Vec<Gold>, Stop>
        requires { IsWellFormed procs.now (length reads.now) code.now }
        ensures table { IsOutcome result (RunsTo procs.now code.now reads.now fuel) }
        ensures outcome { IsOutcome result (λ o. o ≡ outcome_of procs.now code.now reads.now fuel) }
    {
        run_to_end(alloc, room, procs, code, reads, fuel)
    }
}

fn run_to_end(
    alloc: Global,
    room: &mut Room,
    procs: &[Proc],
    code: &Proc,
    reads: &[Gold],
    fuel: u64,
) -> Result<Vec<Gold>, Stop>
    requires { IsWellFormed procs.now (length reads.now) code.now }
    ensures { IsOutcome result (RunsTo procs.now code.now reads.now fuel) }
{
    let own_room = replace(room, Room::new(alloc));
    let mut run = Run::start(alloc, own_room, code, fuel)?;
    let mut body = code.body.as_slice();
    loop {
        match run.step(procs, reads, body)? {
            Flow::Stays => {}
            Flow::Moves => body = body_of(procs, code, run.running),
            Flow::Ends => {
                *room = run.frames.into_room();
                return Ok(run.written);
            }
        }
    }
}

#[inline(always)]
fn body_of<'a>(procs: &'a [Proc], code: &'a Proc, running: Running) -> &'a [Op]
    requires { IsThere procs.now running }
    ensures { result.now ≡ (code_of procs.now code.now running).body }
{
    match running {
        Running::Own => code.body.as_slice(),
        Running::Called(f) => procs[f as usize].body.as_slice(),
    }
}
