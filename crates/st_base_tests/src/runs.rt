//! A run of one value, and lists of such runs.
ghost use Rattle.std.specs.Prelude.{◌<◌};

use st_ids::Or;
use st_runs::{Range, Run, RunPlace, Runs};
use std::alloc::Global;

// One value, some times.
#[derive(Clone, Copy)]
struct Count {
    value: u32,
    times: u32,
    ghost some: { 0 < times },
}

#[tactic(auto, using(crate::proofs::Repeats::length_repeated, crate::proofs::Repeats::repeated_more, crate::proofs::Repeats::repeated_front, crate::proofs::Repeats::repeated_rest))]
impl Run for Count {
    ghost use Rattle.std.specs.Prelude.{replicate};
    ghost use Rattle.std.proofs.Common.{arith};
    ghost use Rattle.std.proofs.lemmas.List.{length-replicate};

    type Item = u32;

    ghost items = { λ c. replicate c.times c.value };

    ghost some = { λ c. omega (arith, length-replicate c.times c.value, c.some) };

    fn size(&self) -> u32 {
        self.times
    }

    fn cut(&mut self, at: u32) -> Self {
        let rest = Count {
            value: self.value,
            times: self.times - at,
        };
        self.times = at;
        rest
    }

    fn meld(&mut self, next: Self) -> Option<Self> {
        if next.value == self.value && next.times <= u32::MAX - self.times {
            self.times += next.times;
            None
        } else {
            Some(next)
        }
    }
}

// Five times one value, in one run, and four times another.
fn runs_are_found(alloc: Global) -> Result<bool, Or<Range>> {
    let mut runs = Runs::new(alloc);
    runs.push(Count { value: 7, times: 2 })?;
    runs.push(Count { value: 7, times: 3 })?;
    runs.push(Count { value: 8, times: 4 })?;
    let first = runs.run(0).is_some_and(|run| run.times == 5) && runs.run(2).is_none();
    let inside = runs.nth(6) == Ok(RunPlace { run: 1, offset: 1 });
    Ok(first && inside && runs.len() == 9 && runs.nth(9) == Err(Range))
}

fn runs_are_cut(alloc: Global) -> Result<bool, Or<Range>> {
    let mut runs = Runs::new(alloc);
    runs.push(Count { value: 7, times: 5 })?;
    runs.push(Count { value: 8, times: 4 })?;
    let mut tail = runs.split(6)?;
    let lengths = runs.len() == 6 && tail.len() == 3;
    let past = runs.split(7).is_err_and(|error| error == Or::Fault(Range));
    tail.join(runs)?;
    Ok(lengths && past && tail.nth(3) == Ok(RunPlace { run: 1, offset: 0 }))
}

fn runs_are_spliced(alloc: Global) -> Result<bool, Or<Range>> {
    let mut runs = Runs::new(alloc);
    runs.push(Count { value: 7, times: 9 })?;
    let mut more = Runs::new(alloc);
    more.push(Count { value: 9, times: 3 })?;
    runs.splice(2, 4, more)?;
    let middle = runs.run(1).is_some_and(|run| run.value == 9);
    let past = runs.splice(7, 2, Runs::new(alloc));
    Ok(middle && runs.len() == 8 && past.is_err_and(|error| error == Or::Fault(Range)))
}

#[test]
fn first_use(rt: HostRuntime) {
    let alloc = rt.alloc();
    let found = runs_are_found(alloc) == Ok(true);
    let cut = runs_are_cut(alloc) == Ok(true);
    let spliced = runs_are_spliced(alloc) == Ok(true);
    assert!(rt; found && cut && spliced, "{found} {cut} {spliced}");
}
