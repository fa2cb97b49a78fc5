//! The load that the program makes itself.
ghost use Rattle.std.specs.Prelude.{◌≡◌, ◌&&◌, ◌↔◌, ◌≤◌, ◌<◌, ◌+◌, ◌^◌, ℕ, None, true, List as Seq, length, map, nat_eq, codes, Ok, IfOk, OnOk};
ghost use Rattle.std.specs.Cmp.Lexicographic.{pointwise};
ghost use Rattle.serde_json.specs.View.{view};
ghost use Rattle.st_ids.specs.Listing.{Has};
ghost use Rattle.st_ids.specs.declared.names.Rev.{Rev};
ghost use Rattle.st_io.specs.Counts.{Rose};
ghost use Rattle.st_script.specs.Header.{HeaderView, header_line};
ghost use Rattle.st_script.specs.Steps.{act_view, step_view, IsWithinLimits};
ghost use Rattle.st_script.specs.Steps as act;
ghost use Rattle.st_script.specs.declared.answer.Answer.{Answer as AnswerView};
ghost use Rattle.st_lists.specs.Clients.{empty_state};
ghost use Rattle.st_lists.specs.Log.{commits_in};
ghost use Rattle.st_lists.specs.Voids.{AreVoid};
ghost use Rattle.st_lists.specs.declared.lists.WorldState.{WorldState};
ghost use Rattle.st_world.specs.World.{IsNext, opening_document};
ghost use Rattle.st_plain.specs.Stands.{Stands};
ghost use Rattle.st_load_laws.specs.Load.{AreMade, EachUntil, IsMadeUntil, load_clients, refusals, step_by};
ghost use Rattle.st_work.specs.Generator.{after_step, step_drawn, steps_of};
ghost use Rattle.st_answers.specs.Answers.{OrCutShort};
ghost use Rattle.st_answers.specs.Run.{IsOutput};
ghost use Rattle.st_answers.specs.Work.{AreShown, IsTallied, IsWorkLine, IsWorkOutput, are_same, load_header, work_data, work_line};
ghost use Rattle.st_run.specs.inside.Standing.{GoesOn};
ghost use Rattle.st_run.specs.inside.Working.{EndsIn, IsCounted, IsEmptied, IsLoadedFor, IsShowingStep, IsShown, IsTurned, IsUnder};

use crate::trace::{make_step, read_header};
use serde_json::{Value, json};
use st_answers::{Outcome, Tally};
use st_ids::{Copied, Or, Text};
use st_io::Sink;
use st_json::write_line;
use st_pieces::write_all;
use st_plain::World;
use st_script::{Act, Answer, Refusal, TraceStep};
use st_work::Work;
use std::alloc::{AllocError, Global};

/// The header that opens the load's world.
const LOAD_HEADER: &str =
    "{\"schema\":{\"root\":[\"list\"],\"types\":[{\"array\":[\"text\"],\"name\":\"list\"}]},\"trace\":1,\"tree\":{\"list\":[]}}";

/// How often a client sends or receives at the end, at most.
const MOST_TURNS: u32 = 262_144;

// The world of the load, before its clients join.
#[tactic(auto, using(crate::proofs::Loads::opens_well))]
fn open(alloc: Global) -> Result<World, AllocError>
    ensures { IfOk result (λ w. (h : HeaderView) × (header_line (codes "trace") load_header ≡ Ok h) × Stands 0 w h empty_state) }
{
    match read_header(alloc, LOAD_HEADER.as_bytes()) {
        Ok(world) => Ok(world),
        Err(Or::NoMemory) => Err(AllocError),
        Err(Or::Fault(_)) => unreachable!(),
    }
}

// A step of a client as a whole.
fn step_by(alloc: Global, act: Act, name: &str) -> Result<TraceStep, AllocError>
    ensures { IfOk result (λ s. step_view s ≡ step_by (act_view act) name.now) }
{
    let client = Text::from_str(alloc, name)?;
    Ok(TraceStep {
        client,
        branch: 0,
        act,
    })
}

// How many refusals an answer is.
fn refusals(answer: &Answer) -> u32
    ensures count { result ≡ refusals answer.now }
    ensures few { result ≤ 1 }
{
    match answer {
        Answer::No(_) => 1,
        _ => 0,
    }
}

// Makes a step, and counts whether it is refused.
fn count_step(alloc: Global, world: &mut World, step: &TraceStep) -> Result<u32, AllocError>
    requires goes { GoesOn world.old }
    requires form { IsWithinLimits (step_view step.now) }
    ensures made { IfOk result (IsCounted world.old world.new (step_view step.now)) }
    ensures few { IfOk result (λ r. r ≤ 1) }
{
    let answer = make_step(alloc, world, step)?;
    Ok(refusals(&answer))
}

// ---- the clients join

fn join_client(alloc: Global, world: &mut World, name: &str) -> Result<u32, AllocError>
    requires goes { GoesOn world.old }
    ensures { IfOk result (IsCounted world.old world.new (step_by (act.join None) name.now)) }
{
    let step = step_by(alloc, Act::Join { uuid: None }, name)?;
    count_step(alloc, world, &step)
}

fn join_all(alloc: Global, world: &mut World) -> Result<(), AllocError>
    requires { (h : HeaderView) × Stands 0 world.old h empty_state }
    ensures { OnOk result ((h : HeaderView) → Stands 0 world.old h empty_state → (v : WorldState) × (refused : ℕ)
        × AreMade h empty_state (map (step_by (act.join None)) load_clients) v refused × Stands 4 world.new h v) }
{
    join_client(alloc, world, "A")?;
    join_client(alloc, world, "B")?;
    join_client(alloc, world, "C")?;
    join_client(alloc, world, "D")?;
    Ok(())
}

// ---- the steps that are drawn

// Makes the next step that is drawn, and counts whether it is refused.
fn draw_one(alloc: Global, world: &mut World, work: &mut Work) -> Result<u32, AllocError>
    requires goes { GoesOn world.old }
    requires few { work.old.made + 1 < 2 ^ 32 }
    ensures made { IfOk result (IsCounted world.old world.new (step_drawn work.old)) }
    ensures few { IfOk result (λ r. r ≤ 1) }
    ensures after { OnOk result (work.new ≡ after_step work.old) }
{
    let step = work.next(alloc)?;
    count_step(alloc, world, &step)
}

fn draw_all(alloc: Global, world: &mut World, seed: u64, steps: u32) -> Result<u32, AllocError>
    requires under { IsUnder 50000 world.old }
    requires few { steps ≤ 50000 }
    ensures { IfOk result (λ r. (k : ℕ) (h : HeaderView) (w : WorldState) → Stands k world.old h w
        → (v : WorldState) × AreMade h w (steps_of seed steps) v r × Stands (k + steps) world.new h v) }
{
    let mut work = Work::new(seed);
    let mut refused = 0;
    'drawing: while work.made < steps {
        refused += draw_one(alloc, world, &mut work)?;
    }
    Ok(refused)
}

// ---- each client sends, and then receives

fn is_refused(answer: &Answer, last: Refusal) -> bool
    ensures { (result ≡ true) ↔ (answer.now ≡ Answer.No last) }
{
    match answer {
        Answer::No(why) => *why == last,
        _ => false,
    }
}

// Makes a step, and says whether it is answered so.
fn turn(
    alloc: Global,
    world: &mut World,
    step: &TraceStep,
    last: Refusal,
) -> Result<bool, AllocError>
    requires goes { GoesOn world.old }
    requires form { IsWithinLimits (step_view step.now) }
    ensures { IfOk result (IsTurned world.old world.new (step_view step.now) (Answer.No last)) }
{
    let answer = make_step(alloc, world, step)?;
    Ok(is_refused(&answer, last))
}

// Makes a step until it is answered so.
fn until(
    alloc: Global,
    world: &mut World,
    step: &TraceStep,
    last: Refusal,
) -> Result<(), AllocError>
    requires ends { EndsIn world.old (step_view step.now) (Answer.No last) }
    requires form { IsWithinLimits (step_view step.now) }
    ensures { OnOk result (IsEmptied world.old world.new (step_view step.now) (Answer.No last)) }
{
    let mut turns = 0;
    'making: while turns < MOST_TURNS {
        if turn(alloc, world, step, last)? {
            return Ok(());
        }
        turns += 1;
    }
    unreachable!()
}

// A client sends all that it has to send.
#[tactic(auto, using(crate::proofs::Loads::sends_soon))]
fn send_client(alloc: Global, world: &mut World, name: &str) -> Result<(), AllocError>
    requires among { Has load_clients name.now }
    requires loaded { IsLoadedFor 262144 world.old }
    ensures { OnOk result (IsEmptied world.old world.new (step_by act.sequence name.now) (Answer.No Refusal.NothingToSend)) }
{
    let step = step_by(alloc, Act::Sequence, name)?;
    until(alloc, world, &step, Refusal::NothingToSend)
}

fn send_all(alloc: Global, world: &mut World) -> Result<(), AllocError>
    requires loaded { IsLoadedFor 1048576 world.old }
    ensures { OnOk result ((k : ℕ) (h : HeaderView) (w : WorldState) → Stands k world.old h w
        → (v : WorldState) × (j : ℕ) × (j ≤ 1048576) × EachUntil h act.sequence Refusal.NothingToSend load_clients w v × Stands (k + j) world.new h v) }
{
    send_client(alloc, world, "A")?;
    send_client(alloc, world, "B")?;
    send_client(alloc, world, "C")?;
    send_client(alloc, world, "D")
}

// A client receives all that there is to receive.
#[tactic(auto, using(crate::proofs::Loads::receives_soon))]
fn receive_client(alloc: Global, world: &mut World, name: &str) -> Result<(), AllocError>
    requires among { Has load_clients name.now }
    requires loaded { IsLoadedFor 262144 world.old }
    ensures { OnOk result (IsEmptied world.old world.new (step_by act.deliver name.now) (Answer.No Refusal.NothingNew)) }
{
    let step = step_by(alloc, Act::Deliver, name)?;
    until(alloc, world, &step, Refusal::NothingNew)
}

fn receive_all(alloc: Global, world: &mut World) -> Result<(), AllocError>
    requires loaded { IsLoadedFor 1048576 world.old }
    ensures { OnOk result ((k : ℕ) (h : HeaderView) (w : WorldState) → Stands k world.old h w
        → (v : WorldState) × (j : ℕ) × (j ≤ 1048576) × EachUntil h act.deliver Refusal.NothingNew load_clients w v × Stands (k + j) world.new h v) }
{
    receive_client(alloc, world, "A")?;
    receive_client(alloc, world, "B")?;
    receive_client(alloc, world, "C")?;
    receive_client(alloc, world, "D")
}

// ---- what they show

// The text of the tree that an answer shows.
fn shown_text(alloc: Global, answer: &Answer) -> Result<Text, AllocError>
    requires { (text : Seq ℕ) × (answer.now ≡ Answer.Show text) }
    ensures { IfOk result (λ t. answer.now ≡ Answer.Show t) }
{
    match answer {
        Answer::Show { tree } => tree.copy(alloc),
        _ => unreachable!(),
    }
}

// Makes a step that shows a tree, and gives the text of it.
fn text_after(alloc: Global, world: &mut World, step: &TraceStep) -> Result<Text, AllocError>
    requires goes { GoesOn world.old }
    requires form { IsWithinLimits (step_view step.now) }
    requires shows { IsShowingStep world.old (step_view step.now) }
    ensures { IfOk result (IsShown world.old world.new (step_view step.now)) }
{
    let answer = make_step(alloc, world, step)?;
    shown_text(alloc, &answer)
}

// The text of the tree that a client shows.
fn show_client(alloc: Global, world: &mut World, name: &str) -> Result<Text, AllocError>
    requires among { Has load_clients name.now }
    requires loaded { IsLoadedFor 1 world.old }
    ensures { IfOk result (IsShown world.old world.new (step_by act.show name.now)) }
{
    let step = step_by(alloc, Act::Show, name)?;
    text_after(alloc, world, &step)
}

// Whether a client shows a text.
fn shows(alloc: Global, world: &mut World, name: &str, text: &Text) -> Result<bool, AllocError>
    requires among { Has load_clients name.now }
    requires loaded { IsLoadedFor 1 world.old }
    ensures { IfOk result (λ b. (k : ℕ) (h : HeaderView) (w : WorldState) → Stands k world.old h w
        → (t : Seq ℕ) × IsNext h w (step_by act.show name.now) w (Answer.Show t) × (b ≡ pointwise nat_eq t text.now) × Stands (k + 1) world.new h w) }
{
    let shown = show_client(alloc, world, name)?;
    Ok(shown == *text)
}

// Whether three are so.
fn all_three(first: bool, second: bool, third: bool) -> bool
    ensures { result ≡ (first && (second && third)) }
{
    first && (second && third)
}

// Whether the clients all show the same.
fn show_all(alloc: Global, world: &mut World) -> Result<bool, AllocError>
    requires loaded { IsLoadedFor 4 world.old }
    ensures { IfOk result (λ equal. (k : ℕ) (h : HeaderView) (w : WorldState) → Stands k world.old h w
        → (texts : Seq (Seq ℕ)) × AreShown h w load_clients texts × (equal ≡ are_same texts) × Stands (k + 4) world.new h w) }
{
    let first = show_client(alloc, world, "A")?;
    let second = shows(alloc, world, "B", &first)?;
    let third = shows(alloc, world, "C", &first)?;
    let fourth = shows(alloc, world, "D", &first)?;
    Ok(all_three(second, third, fourth))
}

// ---- the line

// What is counted at the end.
fn count(world: &World, equal: bool, refused: u32, steps: u32) -> Tally
    ensures voided { (k : ℕ) (h : HeaderView) (w : WorldState) → Stands k world.now h w
        → (void : Seq Rev) × AreVoid (opening_document h) (commits_in w.log) void × (result.voided ≡ length void) }
    ensures entries { (k : ℕ) (h : HeaderView) (w : WorldState) → Stands k world.now h w → result.entries ≡ length w.log }
    ensures given { (result.equal ≡ equal) × (result.refused ≡ refused) × (result.steps ≡ steps) }
{
    Tally {
        entries: world.entries() as u64,
        equal,
        refused,
        steps,
        voided: world.voided() as u64,
    }
}

// Makes the load, and counts what came of it.
fn load(alloc: Global, world: &mut World, seed: u64, steps: u32) -> Result<Tally, AllocError>
    requires opened { (h : HeaderView) × Stands 0 world.old h empty_state }
    requires few { steps ≤ 50000 }
    ensures { IfOk result (λ t. (h : HeaderView) → Stands 0 world.old h empty_state → IsTallied h seed steps t) }
{
    join_all(alloc, world)?;
    let refused = draw_all(alloc, world, seed, steps)?;
    send_all(alloc, world)?;
    receive_all(alloc, world)?;
    let equal = show_all(alloc, world)?;
    Ok(count(world, equal, refused, steps))
}

fn tally_value(alloc: Global, tally: Tally) -> Result<Value, AllocError>
    ensures { IfOk result (λ v. view v ≡ work_data tally) }
{
    let entries = tally.entries;
    let equal = tally.equal;
    let refused = tally.refused;
    let steps = tally.steps;
    let voided = tally.voided;
    json!(in alloc; {"entries": entries, "equal": equal, "ok": "work", "refused": refused, "steps": steps, "voided": voided})
}

fn tally_line(alloc: Global, tally: Tally) -> Result<Text, AllocError>
    ensures { IfOk result (λ t. t ≡ work_line tally) }
{
    let value = tally_value(alloc, tally)?;
    write_line(alloc, &value)
}

// The line of so many steps of a seed.
fn line_of(alloc: Global, seed: u64, steps: u32) -> Result<Text, AllocError>
    requires few { steps ≤ 50000 }
    ensures { IfOk result (IsWorkLine seed steps) }
{
    let mut world = open(alloc)?;
    let tally = load(alloc, &mut world, seed, steps)?;
    tally_line(alloc, tally)
}

/// Makes a load of so many steps of a seed, and tells its line.
pub fn tell_load<K: Sink>(alloc: Global, seed: u64, steps: u32, sink: &mut K) -> Outcome
    requires few { steps ≤ 50000 }
    ensures output { IsOutput (K.written sink.old) (K.written sink.new) (OrCutShort (IsWorkOutput seed steps)) result }
    ensures fault { result ≡ Outcome.WriteFault → Rose (K.faults sink.old) (K.faults sink.new) }
{
    let Ok(line) = line_of(alloc, seed, steps) else {
        return Outcome::NoMemory;
    };
    match write_all(sink, line.as_str().as_bytes()) {
        Ok(()) => Outcome::Done,
        Err(_) => Outcome::WriteFault,
    }
}
