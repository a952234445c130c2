// How many records have each answer, and how many fixes were sent in each minute.
use crate::rows::name_of;
use refusals::Refusal;

// The picoseconds of a minute.
const MINUTE: i64 = 60_000_000_000_000;

// The answers that a record can have, and 18.
const ANSWERS: [u32; 16] = [0, 1, 2, 3, 4, 5, 6, 7, 8, 9, 10, 11, 12, 13, 15, 18];

// A minute, by its number, and how many fixes were sent in it one after the other.
#[derive(Clone, Copy)]
struct Run {
    minute: i64,
    fixes: u64,
}

// What is counted: how many records have each answer, the place of the first malformed one, and the fixes of the minute
// of the last fix.
#[derive(Clone, Copy)]
pub(crate) struct Counts {
    answers: [u64; 32],
    first: Option<u64>,
    run: Option<Run>,
}

// The minute of a time, from 0; one before it is below 0.
fn minute_of(time: i64) -> i64 {
    time.div_euclid(MINUTE)
}

fn print_run(rt: &impl Print, run: Run) {
    let Run { minute, fixes } = run;
    let _ = println!(rt; "minute {minute} fixes {fixes}");
}

// The run with a fix more; one of another minute begins a run, and the run before is printed.
fn with_fix(rt: &impl Print, run: Option<Run>, minute: i64) -> Run {
    match run {
        Some(run) if run.minute == minute => Run {
            minute,
            fixes: run.fixes.wrapping_add(1),
        },
        _ => {
            if let Some(before) = run {
                print_run(rt, before);
            }
            Run { minute, fixes: 1 }
        }
    }
}

// How often an answer is counted: never one that no record has.
fn count_of(counts: &[u64; 32], answer: u32) -> u64 {
    counts.get(answer as usize).copied().unwrap_or(0)
}

impl Counts {
    pub(crate) fn none() -> Counts {
        Counts {
            answers: [0; 32],
            first: None,
            run: None,
        }
    }

    // One record more, at this place.
    pub(crate) fn add(&mut self, rt: &impl Print, place: u64, answer: u32, time: i64) {
        if answer < 32 {
            let i = answer as usize;
            self.answers[i] = self.answers[i].wrapping_add(1);
        }
        if answer == Refusal::MalformedRecord.number() {
            self.first = self.first.or(Some(place));
        }
        if answer == 0 {
            self.run = Some(with_fix(rt, self.run, minute_of(time)));
        }
    }

    // Prints what was counted of so many records.
    pub(crate) fn print(&self, rt: &impl Print, records: u64) {
        if let Some(run) = self.run {
            print_run(rt, run);
        }
        let _ = println!(rt; "records {records}");
        for answer in ANSWERS {
            let count = count_of(&self.answers, answer);
            if count > 0 {
                let name = name_of(answer);
                let _ = println!(rt; "answer {answer} {name} {count}");
            }
        }
        if let Some(place) = self.first {
            let _ = println!(rt; "first malformed at place {place}");
        }
    }
}
