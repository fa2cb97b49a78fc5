//! A world that is opened, and its first step.
ghost use Rattle.std.specs.Prelude.{IfOk};
ghost use Rattle.st_lists.specs.declared.lists.WorldState.{WorldState};
ghost use Rattle.st_plain.specs.Stands.{Stands};
ghost use Rattle.st_script.specs.Header.{HeaderView};

use st_plain::World;
use st_script::{Answer, Line, answer_line, read_header, read_step_line};
use std::alloc::{AllocError, Global};
use std::test::Fail;

const HEADER: &str =
    r#"{"schema":{"root":["list"],"types":[{"array":["text"],"name":"list"}]},"trace":1,"tree":{"list":["x"]}}"#;

// The world that the header opens.
fn open_world(alloc: Global) -> Result<World, Fail>
    ensures stands { IfOk result (λ w. (h : HeaderView) × (v : WorldState) × Stands 0 w h v) }
{
    let Ok(header) = read_header(alloc, HEADER.as_bytes(), "trace") else {
        return Err(Fail::from("no header"));
    };
    Ok(World::new(alloc, header)?)
}

// The answer of the first step to a line.
#[tactic(auto, using(st_plain::proofs::Choosing::line_formed))]
fn answer_to(alloc: Global, world: &mut World, line: &str) -> Result<Answer, Fail>
    requires stands { (h : HeaderView) × (v : WorldState) × Stands 0 world.old h v }
{
    match read_step_line(alloc, line.as_bytes())? {
        Line::Step(step) => world
            .step(alloc, &step)
            .map_err(|_| Fail::from("no answer")),
        Line::Bad(_) => Err(Fail::from("no step")),
    }
}

fn is_written(alloc: Global, answer: &Answer, line: &str) -> Result<bool, AllocError> {
    Ok(answer_line(alloc, answer)?.as_str() == line)
}

#[test]
fn first_use(rt: HostRuntime) -> Result<(), Fail> {
    let alloc = rt.alloc();
    let mut world = open_world(alloc)?;
    let joined = answer_to(alloc, &mut world, r#"{"client":"A","do":"join"}"#)?;
    let first = is_written(alloc, &joined, "{\"n\":1,\"ok\":\"join\",\"s\":1}\n")?;
    assert!(rt; first);
    Ok(())
}
