// A worker's passes over its places.

ghost use Rattle.rcv_passes.specs.Round.{AreReady, HaveRun, HaveGone};

use crate::activity::Activity;
use crate::board::Board;
use crate::place::Place;
use crate::progress::Progress;
use crate::worker::Worker;

// At most so many passes are made.
const PASSES: u32 = 1 << 20;

/// Runs all places once, and then again and again those that aren't over, until the worker goes on no more.
pub fn work<C, T, P: Place<T, C>>(
    with: &C,
    board: &Board,
    number: usize,
    tool: &mut T,
    places: &mut [P],
) -> Activity
    requires { AreReady P.ready places.old }
    ensures ran { HaveRun P.ready P.ran tool.old places.old places.new }
    ensures like { P.like tool.old tool.new }
{
    let mut worker = Worker::begin(board, number);
    let mut pass = Progress::new();
    run_all(with, &mut pass, tool, places);
    for _ in 0..PASSES {
        if !worker.goes_on(board, &pass) {
            break;
        }
        pass.begin_pass();
        run_open(with, &mut pass, tool, places);
    }
    worker.leave(board)
}

// The first pass: each place is run.
fn run_all<C, T, P: Place<T, C>>(with: &C, pass: &mut Progress, tool: &mut T, places: &mut [P])
    requires { AreReady P.ready places.old }
    ensures ran { HaveRun P.ready P.ran tool.old places.old places.new }
    ensures like { P.like tool.old tool.new }
{
    for index in 0..places.len() {
        let place = &mut places[index];
        let pace = place.run(tool, with);
        pass.note(index, pace);
    }
}

// A further pass: each place that isn't over is run.
fn run_open<C, T, P: Place<T, C>>(with: &C, pass: &mut Progress, tool: &mut T, places: &mut [P])
    requires { AreReady P.ready places.old }
    ensures gone { HaveGone P.ready P.ran tool.old places.old places.new }
    ensures like { P.like tool.old tool.new }
{
    for index in 0..places.len() {
        if pass.is_over(index) {
            continue;
        }
        let place = &mut places[index];
        let pace = place.run(tool, with);
        pass.note(index, pace);
    }
}
