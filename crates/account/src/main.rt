// Reads a script of calls from standard input, one to a line, and prints the account.
#![tactic(auto)]

mod calls;
mod faults;
mod lines;
mod pile;
mod plan;
mod print;
mod words;

use crate::pile::run_pile;
use crate::plan::{Item, Plan, read_script};
use crate::print::{put_accepted, put_call_answered, put_cut};
use round::rooms::{needed, room_for};
use round::script::{Answer, Call};
use rules::words::Refusal;
use std::io::Read;
use texts::text::Text;

/// A script that was made: its calls, and what they and the opening lines answered.
#[derive(Drop)]
struct Ran<'a> {
    script: Vec<Call<'a>>,
    opened: Result<(), Refusal>,
    closings: Vec<Result<(), Refusal>>,
    answers: Vec<Answer>,
    placements: Vec<u8>,
    trainees: usize,
}

fn make<'a>(rt: &HostRuntime, plan: &'a Plan) -> anyhow::Result<Ran<'a>> {
    let heap = rt.alloc();
    // a script that opens no round has no calls either
    let opening = plan.opening.unwrap_or_default();
    let trainees = usize::from(opening.trainees_taken());
    let mut practices = plan.kept.practices.as_slice();
    let mut offered = plan.kept.offered.as_slice();
    let mut script = Vec::new(heap);
    for call in plan.calls.iter() {
        script.push(call.on(trainees, &mut practices, &mut offered))?;
    }
    let mut answers = vec![in heap; Answer::Entered(Ok(())); script.len()]?;
    let mut placements = vec![in heap; 255u8; needed(script.as_slice(), trainees)]?;
    let closings = run_pile(
        heap,
        opening,
        plan.closed.as_slice(),
        script.as_slice(),
        answers.as_mut_slice(),
        placements.as_mut_slice(),
    )?;
    Ok(Ran {
        script,
        opened: opening.check(),
        closings,
        answers,
        placements,
        trainees,
    })
}

// Prints what the lines of the script came to, in their order.
fn print_account(rt: &HostRuntime, plan: &Plan, ran: &Ran<'_>) -> anyhow::Result<()> {
    let mut closings = ran.closings.iter();
    let mut answers = ran.script.iter().zip(ran.answers.iter());
    let mut placements = ran.placements.as_slice();
    for item in plan.items.iter() {
        let mut text = Text::new();
        match *item {
            Item::Opened => put_accepted(&mut text, ran.opened, b"opened"),
            Item::Shortened(most) => put_cut(&mut text, most),
            Item::Closed => {
                if let Some(closing) = closings.next() {
                    put_accepted(&mut text, *closing, b"closed");
                }
            }
            Item::Called => {
                if let Some((call, answer)) = answers.next() {
                    let room = room_for(*call, ran.trainees);
                    let seats = placements.split_off(..room).unwrap_or(&[]);
                    put_call_answered(&mut text, *answer, seats);
                }
            }
            Item::Faulty(fault, number) => println!(rt; "line {number}: {fault}")?,
        }
        rt.write_all(text.as_bytes())?;
    }
    Ok(())
}

// The input is read here, since there is no heap below the programs.
fn run(rt: &HostRuntime) -> anyhow::Result<()> {
    let heap = rt.alloc();
    let mut script = Vec::new(heap);
    rt.stdin().read_to_end(&mut script)?;
    let plan = read_script(heap, script.as_slice())?;
    let ran = make(rt, &plan)?;
    print_account(rt, &plan, &ran)
}

fn main(rt: HostRuntime) -> anyhow::Result<()> {
    run(&rt)
}
