ghost use Rattle.std.specs.Prelude.{◌≡◌, ℕ, ◌+◌, ◌*◌, ◌++◌, ◌<◌, ◌≤◌, ◌↔◌, [], ◌∷◌, length, List, IsTrue, IfOk, IfSome, OnErr, Ok, Option, Some, None, option_map, slice_get, slice_index};
ghost use Rattle.rv_fields.specs.Decode.{decoded};
ghost use Rattle.rv_fields.specs.Memory.{in_ram};
ghost use Rattle.region_plan.specs.Plan.{Work, hart_count, plan_of};
ghost use Rattle.region_plan.specs.Request.{no_arms};
ghost use Rattle.region_plan.specs.Rules.{IsMakeableRequest, KeepsRules, most_requests};
ghost use Rattle.region_plan.specs.Views.{request_seen, work_of};
ghost use Rattle.std.specs.List.{AllByRecursion};
ghost use Rattle.trace_text.specs.Lines as told;
ghost use Rattle.trace_text.specs.Traces.{IsStep, KeepsRanges};
ghost use Rattle.world_face.specs.Events.{no_parts};
ghost use Rattle.hart_task.specs.Acts.{request_kind};
ghost use Rattle.hart_task.specs.Asking.{item_seen};
ghost use Rattle.trace_text.specs.Views.{step_seen};
ghost use Rattle.world_face.specs.Views.{event_seen};
ghost use Rattle.world_face.specs.Views as room;

use crate::log::{HartLog, Turned};
use crate::stepping::{step_word, word_of};
use boot_words::{code_start, handler, start_csrs};
use choice_tree::DrawWords;
use operand_solver::NoRegister;
use region_plan::{Item, Job, Request};
use rv_fields::{Mode, NoMemory};
use rv_step::{Hart, rs1_of};
use rv_table::{decode, row};
use std::alloc::Global;
use trace_fields::{Cause, Kind};
use trace_text::{Line, StepLine};
use value_file::ValueFile;
use world_face::{Event, Placed, World};

/// The word at which a hart ends: `jal x0,0`.
const END_WORD: u32 = 0x0000_006f;

/// The most lines of a request that begins: that it does, and that it is refused.
const MOST_LINES_OF_BEGIN: usize = 2;

/// The most lines of a step: two registers that get their values, the step, and the end of its request.
const MOST_LINES: usize = 4;

/// The last word of a handler, counted from 0.
const LAST_HANDLER_WORD: u32 = 5;

/// A request that has begun, and makes its word next.
#[derive(Clone, Copy, Debug, PartialEq, Eq)]
pub struct Making {
    /// The number of the request.
    pub k: u32,
    pub request: Request,
    /// The word, whose operands are drawn.
    pub word: u32,
}

/// A request whose step took a trap, and which is done when the handler has returned.
#[derive(Clone, Copy, Debug, PartialEq, Eq)]
pub struct Handling {
    /// The number of the request.
    pub k: u32,
    /// The word of the handler that is stepped next, counted from 0.
    pub next: u32,
}

/// How far a hart is with its requests.
#[derive(Clone, Copy, Debug, PartialEq, Eq)]
pub enum Phase {
    /// No request is under way.
    Between,
    Making(Making),
    Handling(Handling),
    /// The ending step was made.
    Finished,
}

/// A hart at work on its template.
#[derive(Drop)]
pub struct HartTask {
    hart: Hart,
    phase: Phase,
    /// The number of requests that have begun.
    begun: u32,
    /// The words from which it draws all but its picks.
    draws: DrawWords,
    log: HartLog,
}

impl HartTask {
    ghost use Rattle.std.specs.Prelude.{◌≢◌};
    ghost use Rattle.boot_words.specs.Boot.{handler};
    ghost use Rattle.hart_task.specs.Acts.{Fixing, fixing_lines};
    ghost use Rattle.hart_task.specs.Log.{HasLogRoom, HasRoomForEvent, log_seen};
    ghost use Rattle.hart_task.specs.Plain.{IsPlainFor};
    ghost use Rattle.hart_task.specs.Task.{Commits, IsLogOf, IsTaskOf, IsTurn, Moves, Steps, begun_lines, begun_task, events_left, fixed_task, late_of, late_one, of_end, of_handler, of_request, script, task_event, task_seen, with_event};
    ghost use Rattle.rv_step.specs.Views.{hart_seen};

    /// A hart before its first event, at the start of its code window.
    pub fn new(alloc: Global, hart: u8, seed: u64) -> HartTask
        ensures task { (work : Work) → KeepsRules work → hart < hart_count work → IsTaskOf work result }
        ensures number { result.hart.number ≡ hart }
        ensures seed { result.draws.seed ≡ seed }
        ensures empty { (log_seen result.log).events ≡ [] }
    {
        HartTask {
            hart: Hart {
                number: hart,
                pc: code_start(hart),
                x: [0; 32],
                mode: Mode::M,
                csrs: start_csrs(hart),
                reserved: None,
            },
            phase: Phase::Between,
            begun: 0,
            draws: DrawWords::new(seed, stream_of(hart)),
            log: HartLog {
                events: Vec::new(alloc),
                words: Vec::new(alloc),
                values: ValueFile::new(),
            },
        }
    }

    /// Takes one turn at the template: a request begins, its word is made, the handler of its trap goes on, or the hart
    /// ends. The job is the one of every turn. What it takes of memory it takes before it changes anything.
    pub fn turn<W: World>(
        &mut self,
        alloc: Global,
        job: &Job,
        world: &mut W,
    ) -> Result<Turned, NoMemory>
        requires rules { KeepsRules (work_of job.now) }
        requires task { IsTaskOf (work_of job.now) self.old }
        requires room { 0 < W.room world.old }
        ensures task { IsTaskOf (work_of job.now) self.new }
        ensures number { self.new.hart.number ≡ self.old.hart.number }
        ensures seed { self.new.draws.seed ≡ self.old.draws.seed }
        ensures turn { IfOk result (λ turned. IsTurn turned (task_seen self.old) (task_seen self.new) (W.stands world.old) (W.stands world.new)) }
        ensures nearer { (place : ℕ) → result ≡ Ok (Turned.Event place)
            → events_left (work_of job.now) (task_seen self.new) < events_left (work_of job.now) (task_seen self.old) }
        ensures room { (place : ℕ) → result ≡ Ok (Turned.Event place) → W.room world.new + 1 ≡ W.room world.old }
        ensures unchanged { OnErr result (task_seen self.new ≡ task_seen self.old) }
        ensures quiet { OnErr result (world.new ≡ world.old) }
    {
        let place = match self.phase {
            Phase::Between => match self.next_request(job) {
                Some(request) => self.begin(alloc, request, world)?,
                None => self.end(alloc, world)?,
            },
            Phase::Making(making) => self.make(alloc, making, world)?,
            Phase::Handling(handling) => self.handle(alloc, handling, world)?,
            Phase::Finished => return Ok(Turned::Finished),
        };
        Ok(Turned::Event { place })
    }

    /// Whether the hart has made its ending step.
    pub fn finished(&self) -> bool
        ensures { IsTrue result ↔ (self.now.phase ≡ Phase.Finished) }
    {
        self.phase == Phase::Finished
    }

    /// What the hart did.
    pub fn into_log(self) -> HartLog
        requires { self.phase ≡ Phase.Finished }
        ensures log { log_seen result ≡ log_seen self.log }
        ensures run { (work : Work) → KeepsRules work → IsTaskOf work self → IsLogOf work self.draws.seed self.hart.number (log_seen result) }
    {
        self.log
    }

    /// The first request that hasn't begun.
    fn next_request(&self, job: &Job) -> Option<Request>
        requires { self.now.hart.number < hart_count (work_of job.now) }
        ensures { slice_get (script (work_of job.now) self.now.hart.number) self.now.begun
            ≡ option_map (λ r. record { request = request_seen r; arms = no_arms }) result }
    {
        let item = job.template(self.hart.number).get(self.begun as usize)?;
        Some(request_in(item))
    }

    /// The request begins: the operands of its word are drawn, or it is refused.
    fn begin<W: World>(
        &mut self,
        alloc: Global,
        request: Request,
        world: &mut W,
    ) -> Result<u64, NoMemory>
        requires makeable { IsMakeableRequest (request_seen request) }
        requires few { self.old.draws.drawn + 4 < u64.MAX }
        requires room { 0 < W.room world.old }
        requires count { self.old.begun < most_requests }
        ensures task { IfOk result (λ place. task_seen self.new ≡ begun_task (task_seen self.old) request place) }
        ensures commits { IfOk result (λ place. Commits place (task_event self.old.hart.number (begun_lines self.old.hart.number self.old.begun (request_seen request)))
            (W.stands world.old) (W.stands world.new)) }
        ensures ranges { IfOk result (λ place. AllByRecursion KeepsRanges (begun_lines self.old.hart.number self.old.begun (request_seen request))) }
        ensures room { IfOk result (λ place. W.room world.new + 1 ≡ W.room world.old) }
        ensures unchanged { OnErr result (task_seen self.new ≡ task_seen self.old) }
        ensures quiet { OnErr result (world.new ≡ world.old) }
    {
        self.log.reserve()?;
        let (hart, k) = (self.hart.number, self.begun);
        let mut event = Event::new(alloc, hart, MOST_LINES_OF_BEGIN)?;
        event.add(Line::Q {
            hart,
            k,
            kind: kind_of(request),
        });
        self.phase = match word_of(request, &mut self.draws) {
            Ok(word) => Phase::Making(Making { k, request, word }),
            Err(NoRegister) => {
                event.add(Line::R {
                    hart,
                    k,
                    cause: Cause::NoRegister,
                    pre: 0,
                });
                Phase::Between
            }
        };
        self.begun += 1;
        Ok(self.commit(event, world))
    }

    /// The request under way makes its word. It is done then, unless its step takes a trap.
    fn make<W: World>(
        &mut self,
        alloc: Global,
        making: Making,
        world: &mut W,
    ) -> Result<u64, NoMemory>
        requires plain { IsPlainFor (hart_seen self.old.hart) making.word }
        requires zero { slice_index self.old.hart.x 0 ≡ 0 }
        requires in_ram { IsTrue (in_ram self.old.hart.pc 4) }
        requires few { self.old.draws.drawn + 2 < u64.MAX }
        requires room { 0 < W.room world.old }
        ensures steps { IfOk result (λ place. Steps (of_request making.k) making.word (task_seen self.old) (task_seen self.new) place (W.stands world.old) (W.stands world.new)) }
        ensures room { IfOk result (λ place. W.room world.new + 1 ≡ W.room world.old) }
        ensures unchanged { OnErr result (task_seen self.new ≡ task_seen self.old) }
        ensures quiet { OnErr result (world.new ≡ world.old) }
    {
        let (mut event, step) = self.step(alloc, making.word)?;
        let is_trapped = step.trap.is_some();
        self.log.add_word(making.word);
        event.add(Line::S(step));
        if is_trapped {
            self.phase = Phase::Handling(Handling {
                k: making.k,
                next: 0,
            });
        } else {
            self.done(making.k, &mut event);
        }
        Ok(self.commit(event, world))
    }

    /// The hart steps the next word of the handler. Behind the last one the request that took the trap is done.
    fn handle<W: World>(
        &mut self,
        alloc: Global,
        handling: Handling,
        world: &mut W,
    ) -> Result<u64, NoMemory>
        requires next { handling.next < 6 }
        requires plain { IsPlainFor (hart_seen self.old.hart) (slice_index (handler Mode.M) handling.next) }
        requires zero { slice_index self.old.hart.x 0 ≡ 0 }
        requires in_ram { IsTrue (in_ram self.old.hart.pc 4) }
        requires few { self.old.draws.drawn + 2 < u64.MAX }
        requires room { 0 < W.room world.old }
        ensures steps { IfOk result (λ place. Steps (of_handler handling.k handling.next) (slice_index (handler Mode.M) handling.next) (task_seen self.old) (task_seen self.new) place (W.stands world.old) (W.stands world.new)) }
        ensures room { IfOk result (λ place. W.room world.new + 1 ≡ W.room world.old) }
        ensures unchanged { OnErr result (task_seen self.new ≡ task_seen self.old) }
        ensures quiet { OnErr result (world.new ≡ world.old) }
    {
        let (mut event, step) = self.step(alloc, handler(Mode::M)[handling.next as usize])?;
        event.add(Line::F(step));
        if handling.next == LAST_HANDLER_WORD {
            self.done(handling.k, &mut event);
        } else {
            self.phase = Phase::Handling(Handling {
                next: handling.next + 1,
                ..handling
            });
        }
        Ok(self.commit(event, world))
    }

    /// The hart makes its ending step.
    fn end<W: World>(&mut self, alloc: Global, world: &mut W) -> Result<u64, NoMemory>
        requires plain { IsPlainFor (hart_seen self.old.hart) 0x6f }
        requires zero { slice_index self.old.hart.x 0 ≡ 0 }
        requires in_ram { IsTrue (in_ram self.old.hart.pc 4) }
        requires few { self.old.draws.drawn + 2 < u64.MAX }
        requires room { 0 < W.room world.old }
        ensures steps { IfOk result (λ place. Steps of_end 0x6f (task_seen self.old) (task_seen self.new) place (W.stands world.old) (W.stands world.new)) }
        ensures room { IfOk result (λ place. W.room world.new + 1 ≡ W.room world.old) }
        ensures unchanged { OnErr result (task_seen self.new ≡ task_seen self.old) }
        ensures quiet { OnErr result (world.new ≡ world.old) }
    {
        let (mut event, step) = self.step(alloc, END_WORD)?;
        self.log.add_word(END_WORD);
        event.add(Line::E(step));
        self.phase = Phase::Finished;
        Ok(self.commit(event, world))
    }

    /// Steps the word at pc. What it reads of the untouched registers gets values first, of which the event tells. There
    /// is room in it for two lines more, and in the log for it and for a word.
    fn step(&mut self, alloc: Global, word: u32) -> Result<(Event, StepLine), NoMemory>
        requires plain { IsPlainFor (hart_seen self.old.hart) word }
        requires zero { slice_index self.old.hart.x 0 ≡ 0 }
        requires in_ram { IsTrue (in_ram self.old.hart.pc 4) }
        requires few { self.old.draws.drawn + 2 < u64.MAX }
        ensures moves { IfOk result (λ r. Moves word (task_seen self.old) (task_seen self.new) (step_seen r.1)) }
        ensures event { IfOk result (λ r. event_seen r.0
            ≡ task_event self.old.hart.number (fixing_lines self.old.hart.number (late_of (task_seen self.old) (decoded word)))) }
        ensures ranges { IfOk result (λ r. AllByRecursion KeepsRanges (fixing_lines self.old.hart.number (late_of (task_seen self.old) (decoded word)))) }
        ensures told { IfOk result (λ r. IsStep (step_seen r.1)) }
        ensures lines { IfOk result (λ r. room.HasRoomForLines 2 r.0) }
        ensures log { IfOk result (λ r. HasLogRoom self.new.log) }
        ensures unchanged { OnErr result (task_seen self.new ≡ task_seen self.old) }
    {
        self.log.reserve()?;
        let mut event = Event::new(alloc, self.hart.number, MOST_LINES)?;
        self.fix_sources(word, &mut event);
        let step = step_word(&mut self.hart, word);
        self.log.write(step.rd);
        Ok((event, step))
    }

    /// The request is done, which the event tells.
    fn done(&mut self, k: u32, event: &mut Event)
        requires { room.HasRoomForLines 1 event.old }
        ensures task { task_seen self.new ≡ record (task_seen self.old) { phase = Phase.Between } }
        ensures event { event_seen event.new
            ≡ record (event_seen event.old) { lines = (event_seen event.old).lines ++ told.done self.old.hart.number k ∷ [] } }
        ensures ranges { KeepsRanges (told.done self.old.hart.number k) }
        ensures log { HasRoomForEvent self.old.log → HasRoomForEvent self.new.log }
    {
        event.add(Line::D {
            hart: self.hart.number,
            k,
        });
        self.phase = Phase::Between;
    }

    /// Gives the untouched registers that the word reads their starting values.
    fn fix_sources(&mut self, word: u32, event: &mut Event)
        requires room { room.HasRoomForLines 4 event.old }
        requires few { self.old.draws.drawn + 2 < u64.MAX }
        ensures task { task_seen self.new ≡ fixed_task (task_seen self.old) (late_of (task_seen self.old) (decoded word)) }
        ensures event { event_seen event.new
            ≡ record (event_seen event.old) { lines = (event_seen event.old).lines ++ fixing_lines self.old.hart.number (late_of (task_seen self.old) (decoded word)) } }
        ensures ranges { AllByRecursion KeepsRanges (fixing_lines self.old.hart.number (late_of (task_seen self.old) (decoded word))) }
        ensures log { HasLogRoom self.old.log → HasLogRoom self.new.log }
        ensures room { room.HasRoomForLines 2 event.new }
        ensures zero { slice_index self.old.hart.x 0 ≡ 0 → slice_index self.new.hart.x 0 ≡ 0 }
    {
        let Some((ins, ops)) = decode(word) else {
            return;
        };
        self.fix_source(rs1_of(row(ins).form, &ops), event);
        self.fix_source(ops.rs2, event);
    }

    /// Gives the register its starting value, if it is untouched: the next word of the hart's stream.
    fn fix_source(&mut self, register: u8, event: &mut Event)
        requires register { register < 32 }
        requires room { room.HasRoomForLines 1 event.old }
        requires few { self.old.draws.drawn + 1 < u64.MAX }
        ensures task { task_seen self.new ≡ fixed_task (task_seen self.old) (late_one (task_seen self.old) register) }
        ensures event { event_seen event.new
            ≡ record (event_seen event.old) { lines = (event_seen event.old).lines ++ fixing_lines self.old.hart.number (late_one (task_seen self.old) register) } }
        ensures ranges { AllByRecursion KeepsRanges (fixing_lines self.old.hart.number (late_one (task_seen self.old) register)) }
        ensures log { HasLogRoom self.old.log → HasLogRoom self.new.log }
        ensures room { (count : ℕ) → room.HasRoomForLines (count + 1) event.old → room.HasRoomForLines count event.new }
        ensures zero { slice_index self.old.hart.x 0 ≡ 0 → slice_index self.new.hart.x 0 ≡ 0 }
    {
        if self.log.values.touched(register) {
            return;
        }
        let hart = self.hart.number;
        let value = self.draws.next();
        self.hart.x[register as usize] = value;
        self.log.values.fix(register, value);
        event.add(Line::X {
            hart,
            reg: u32::from(register),
            value,
        });
    }

    /// The event takes place in the world, and stands in the log.
    fn commit<W: World>(&mut self, event: Event, world: &mut W) -> u64
        requires log { HasRoomForEvent self.old.log }
        requires parts { (event_seen event).parts ≡ no_parts }
        requires room { 0 < W.room world.old }
        ensures task { task_seen self.new ≡ record (task_seen self.old) { log = with_event (log_seen self.old.log) result (event_seen event) } }
        ensures commits { Commits result (event_seen event) (W.stands world.old) (W.stands world.new) }
        ensures room { W.room world.new + 1 ≡ W.room world.old }
    {
        let taken = world.take(&event.parts);
        let place = world.commit(&event, taken);
        self.log.add_event(Placed { place, event });
        place
    }
}

/// The request that the item is.
fn request_in(item: &Item) -> Request
    ensures { item_seen item.now ≡ record { request = request_seen result; arms = no_arms } }
{
    match item {
        Item::One(request) => *request,
    }
}

/// The stream from which a hart draws all but its picks.
fn stream_of(hart: u8) -> u64
    ensures { result ≡ 2 * hart + 1 }
{
    2 * u64::from(hart) + 1
}

/// The key that leads the request's item.
fn kind_of(request: Request) -> Kind
    ensures { result ≡ request_kind (request_seen request) }
{
    match request {
        Request::Ins { .. } => Kind::Ins,
        Request::Csr { .. } => Kind::Csr,
        Request::Sys(_) => Kind::Sys,
    }
}
