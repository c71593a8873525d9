// Lives: how long each value stands in its register, and whether two of them meet there.
ghost use Rattle.std.specs.Prelude.{◌≡◌, ℕ, ◌+◌, ◌<◌, ◌≤◌, length, if◌then◌else◌, None, slice_index, slice_index_or};
ghost use Rattle.graphs.specs.Graphs.{count};
ghost use Rattle.prices.specs.Sums.{lowest, any, most};
ghost use Rattle.plans.specs.Plans.{names, operation_reads, reads, is_output, start_of, units};
ghost use Rattle.plans.specs.Calls.{meet};
ghost use Rattle.board.specs.Boards.{graph_on, plan_on, life_on, clash_on};
ghost use Rattle.board.specs.Lives.{Raises, wanted_until, stands_in, standing};

use super::Board;
use plans::{Life, Placing};
use prices::PriceList;
use sheet::{Operation, Source};

// Raises the entry of the operation that a source names to this step, if it is lower.
fn raise(until: &mut [u32], source: Source, step: u32)
    ensures { Raises until.old until.new (λ x. if names source x then step else 0) }
{
    if let Source::Earlier(e) = source {
        // by index: after a loan by `get_mut` nothing would be known of the other entries
        let o = usize::from(e);
        if o < until.len() {
            until[o] = until[o].max(step);
        }
    }
}

// Raises the entries of an operation's operands to its start.
fn raise_operands(until: &mut [u32], operation: Operation, start: u32)
    ensures { Raises until.old until.new (λ x. if operation_reads operation x then start else 0) }
{
    let [a, b] = operation.operands();
    raise(until, a.source, start);
    raise(until, b.source, start);
}

// The start of a placing; 0 where there is none.
fn start_of(placing: Option<Placing>) -> u32
    ensures { result ≡ start_of placing }
{
    placing.map_or(0, |p| p.start.into())
}

fn is_in(register: usize, value: Option<Life>) -> bool
    ensures { result ≡ stands_in register value }
{
    value.is_some_and(|x| usize::from(x.register) == register)
}

// Whether both values stand in the register and share a step.
fn is_shared(register: usize, a: Option<Life>, b: Option<Life>) -> bool
    ensures { result ≡ meet register a b }
{
    a.zip(b).is_some_and(|(x, y)| {
        usize::from(x.register) == register
            && usize::from(y.register) == register
            && x.from <= y.through
            && y.from <= x.through
    })
}

// Counts a value in the register that it stands in.
fn enter(crowd: &mut [u8], value: Option<Life>)
    requires { (q : ℕ) → q < length crowd.old → slice_index crowd.old q ≤ 64 }
    ensures { (q : ℕ) → q < length crowd.old → slice_index crowd.new q ≡ slice_index crowd.old q + (if stands_in q value then 1 else 0) }
{
    if let Some(x) = value {
        // by index: after a loan by `get_mut` nothing would be known of the other entries
        let q = usize::from(x.register);
        if q < crowd.len() {
            crowd[q] += 1;
        }
    }
}

// How many values stand in each register.
fn crowd(lives: &[Option<Life>]) -> [u8; 64]
    requires { length lives.now ≤ 64 }
    ensures { (q : ℕ) → q < 64 → slice_index result q ≡ standing lives.now q (length lives.now) }
{
    let mut crowd = [0; 64];
    for life in lives {
        enter(&mut crowd, *life);
    }
    crowd
}

// The lowest register in which two lives share a step. A register with one value at most is passed over, and so is a value
// that does not stand in the register, before it is held against the others. The search is written out as nested loops left
// by their label, since it is the hottest of a placing and what it passes over shows there (docs/DECISIONS.md, "The search
// for a clash").
fn clash_in(lives: &[Option<Life>]) -> Option<usize>
    requires { length lives.now ≤ 64 }
    ensures { result ≡ lowest (λ q. any (λ x. any (λ y. meet q (slice_index_or lives.now x None) (slice_index_or lives.now y None)) x) (length lives.now)) units }
{
    let crowd = crowd(lives);
    let mut found = None;
    'registers: for (q, standing) in crowd.iter().enumerate() {
        if *standing < 2 {
            continue;
        }
        for (x, life) in lives.iter().enumerate() {
            if !is_in(q, *life) {
                continue;
            }
            for other in &lives[..x] {
                if is_shared(q, *life, *other) {
                    found = Some(q);
                    break 'registers;
                }
            }
        }
    }
    found
}

impl<L> Board<L> {
    // Raises each entry to the last start of a placed reader.
    fn raise_read(&self, until: &mut [u32])
        ensures { Raises until.old until.new (λ x. most (λ r. (if reads (graph_on self.now) r x then start_of ((plan_on self.now).placed r) else 0)) (count (graph_on self.now))) }
    {
        for (r, operation) in self.job.operations().iter().enumerate() {
            raise_operands(until, *operation, start_of(self.placed(r)));
        }
    }

    // Raises the entries of the outputs to the limit.
    fn raise_outputs(&self, until: &mut [u32])
        ensures { Raises until.old until.new (λ x. if is_output (graph_on self.now) x then (graph_on self.now).limit else 0) }
    {
        let limit = self.job.limit().into();
        for o in self.job.outputs() {
            raise(until, Source::Earlier(*o), limit);
        }
    }

    // How long each value is wanted. Inlined, so that the table is made only where it is asked for: as the answer of a call it
    // would be cleared before `life_at` sees that nothing is placed.
    #[inline]
    fn wanted(&self) -> [u32; 64]
        ensures { (x : ℕ) → x < 64 → slice_index result x ≡ wanted_until (graph_on self.now) (plan_on self.now) x }
    {
        let mut until = [0; 64];
        self.raise_read(&mut until);
        self.raise_outputs(&mut until);
        until
    }
}

impl<L: PriceList> Board<L> {
    // The life of a value that is wanted until a step. Inlined, since a placing asks it of every operation.
    #[tactic(auto, unfolding(plans::specs::Plans::last))]
    #[inline]
    fn life_of(&self, o: usize, until: u32) -> Option<Life>
        requires { until ≡ wanted_until (graph_on self.now) (plan_on self.now) o }
        ensures { result ≡ life_on L.prices self.now o }
    {
        self.placed(o).map(|p| {
            let from = self.finish_of(o, p);
            Life {
                register: p.register,
                from,
                through: from.max(until),
            }
        })
    }

    // The life of an operation's value, if it is placed.
    pub(super) fn life_at(&self, o: usize) -> Option<Life>
        ensures { result ≡ life_on L.prices self.now o }
    {
        self.placed(o)?;
        let until = self.wanted();
        self.life_of(o, *until.get(o)?)
    }

    // The life of each operation's value; the entries past the last one stay empty.
    fn lives(&self) -> [Option<Life>; 64]
        ensures { (x : ℕ) → x < count (graph_on self.now) → slice_index_or result x None ≡ life_on L.prices self.now x }
    {
        let until = self.wanted();
        let mut lives = [None; 64];
        for o in 0..self.count() {
            lives[o] = self.life_of(o, until[o]);
        }
        lives
    }

    // The lowest register of the board in which two lives share a step.
    pub(super) fn clashing(&self) -> Option<usize>
        ensures { result ≡ lowest (clash_on L.prices self.now (plan_on self.now)) units }
    {
        let lives = self.lives();
        clash_in(&lives[..self.count()])
    }
}
