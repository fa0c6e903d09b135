// One step. It takes the whole state and the position in the schedule by value, and gives the next ones back; between, the state is changed where it
// lies, because one that is handed from call to call would be copied each time.
ghost use Rattle.std.specs.Prelude.{◌≡◌, ◌+◌, ◌/◌, ◌%◌, ◌<◌};
ghost use Rattle.table.specs.Layout.{points_of, nodes_of};
ghost use Rattle.table.specs.Decode.{point_of};
ghost use Rattle.table.specs.Tree.{arith_at, cond_at};
ghost use Rattle.table.specs.Meaning.{result as result_of, truth};
ghost use Rattle.run.specs.State.{point_in, owner_in, is_free, owns_of, with_stop_of};
ghost use Rattle.run.specs.Step.{stepped, assign_by, test_by, lock_by, unlock_by, act_of, runs_of, step_of};

use crate::evaluate::{value, verity};
use crate::program::Program;
use crate::stop::Stop;
use crate::{State, Stepped};
use table::Point;
use words::number_at;

// A task's turn: the task, what it reads, and the position behind its own word.
#[derive(Clone, Copy)]
struct Turn<'a> {
    task: usize,
    program: &'a Program<'a>,
    schedule: &'a [i32],
    at: usize,
    ghost few: { task < 8 },
}

impl State {
    // Whether u is a task that hasn't stopped.
    #[tactic(auto, using(crate::proofs::SlotLaws::task_fits), unfolding(crate::specs::Step::runs_of))]
    fn runs(&self, program: &Program, u: usize) -> bool
        ensures { result ≡ runs_of program.now.table.now.words.now self.now u }
    {
        u < program.table.sizes.tasks && self.stop_kinds[u] == 0
    }

    // The task u stops with an error.
    fn stop(&mut self, u: usize, error: Stop)
        requires { u < 8 }
        ensures { self.new ≡ with_stop_of self.old u (error.number / 2) (1 + error.number % 2) }
    {
        self.stop_nodes[u] = error.node();
        self.stop_kinds[u] = error.kind();
    }

    // An assignment of the node e to v: the task goes on at q, or stops.
    #[tactic(auto, using(crate::proofs::KeptLaws::kept), unfolding(crate::specs::Step::assign_by, crate::specs::Codes::evaluation_of))]
    fn assign(&mut self, turn: Turn, v: usize, e: usize, q: usize) -> usize
        requires { (v < 16) × (e < 1024) × (q < 256) }
        ensures { stepped self.new result ≡ assign_by (result_of (arith_at (nodes_of turn.entry.program.now.table.now.words.now) e) self.old.values turn.entry.schedule.now turn.entry.at) self.old turn.entry.task v q }
    {
        let mut last = turn.at;
        match value(
            turn.program.nodes,
            e,
            &self.values,
            turn.schedule,
            &mut last,
        ) {
            Ok(z) => {
                self.values[v] = z;
                self.points[turn.task] = q as u16;
            }
            Err(error) => self.stop(turn.task, error),
        }
        last
    }

    // A test of the condition c: the task goes on at y or at n, or stops.
    #[tactic(auto, using(crate::proofs::KeptLaws::kept), unfolding(crate::specs::Step::test_by, crate::specs::Codes::evaluation_of))]
    fn test(&mut self, turn: Turn, c: usize, y: usize, n: usize) -> usize
        requires { (c < 1024) × (y < 256) × (n < 256) }
        ensures { stepped self.new result ≡ test_by (truth (cond_at (nodes_of turn.entry.program.now.table.now.words.now) c) self.old.values turn.entry.schedule.now turn.entry.at) self.old turn.entry.task y n }
    {
        let mut last = turn.at;
        match verity(
            turn.program.nodes,
            c,
            &self.values,
            turn.schedule,
            &mut last,
        ) {
            Ok(t) => self.points[turn.task] = if t { y as u16 } else { n as u16 },
            Err(error) => self.stop(turn.task, error),
        }
        last
    }

    // A lock of m by the task u, going on at q.
    #[tactic(auto, unfolding(crate::specs::Step::lock_by))]
    fn lock(&mut self, u: usize, m: usize, q: usize)
        requires { (u < 8) × (m < 8) × (q < 256) }
        ensures { self.new ≡ lock_by (is_free (owner_in self.old m)) self.old u m q }
    {
        if self.owners[m] == -1 {
            self.owners[m] = u as i8;
            self.points[u] = q as u16;
        }
    }

    // An unlock of m by the task u, going on at q.
    #[tactic(auto, unfolding(crate::specs::Step::unlock_by))]
    fn unlock(&mut self, u: usize, m: usize, q: usize)
        requires { (u < 8) × (m < 8) × (q < 256) }
        ensures { self.new ≡ unlock_by (owns_of self.old u m) self.old u m q }
    {
        if self.owners[m] == u as i8 {
            self.owners[m] = -1;
            self.points[u] = q as u16;
        }
    }

    // What the task does, by what stands at its point.
    #[tactic(auto, unfolding(crate::specs::Step::act_of))]
    fn act(&mut self, turn: Turn) -> usize
        ensures { stepped self.new result ≡ act_of turn.entry.program.now.table.now.words.now turn.entry.schedule.now (point_of (points_of turn.entry.program.now.table.now.words.now) (point_in self.old turn.entry.task)) self.old turn.entry.task turn.entry.at }
    {
        match turn.program.point(usize::from(self.points[turn.task])) {
            Point::End => {}
            Point::Assign(v, e, q) => return self.assign(turn, v, e, q),
            Point::Test(c, y, n) => return self.test(turn, c, y, n),
            Point::Lock(m, q) => self.lock(turn.task, m, q),
            Point::Unlock(m, q) => self.unlock(turn.task, m, q),
        }
        turn.at
    }

    // The step of the task word at the position `at`, where the state lies. It gives the next position. With no word left nothing changes.
    #[tactic(auto, using(crate::proofs::SlotLaws::task_fits), unfolding(crate::specs::Step::runs_of, crate::specs::Step::step_of, crate::specs::Step::step_by, crate::specs::Step::turn_of, crate::specs::Step::turn_by))]
    fn advance(&mut self, at: usize, program: &Program, schedule: &[i32]) -> usize
        ensures { stepped self.new result ≡ step_of program.now.table.now.words.now schedule.now self.old at }
    {
        if schedule.len() <= at {
            return at;
        }
        let task = number_at(schedule, at);
        let at = at + 1;
        if !self.runs(program, task) {
            return at;
        }
        self.act(Turn {
            task,
            program,
            schedule,
            at,
        })
    }

    // The step of the task word at the position `at`. With no word left nothing changes.
    pub(crate) fn step(self, at: usize, program: &Program, schedule: &[i32]) -> Stepped
        ensures { result ≡ step_of program.now.table.now.words.now schedule.now self at }
    {
        let mut state = self;
        let at = state.advance(at, program, schedule);
        Stepped { state, at }
    }
}
