// What two players can do on a program: the driver picks at each `if` on a variable of his, the unit at every other. The numbers of the
// statements, in how many steps he can force a goal, and the arms that both take.
#![tactic(auto)]

ghost use Rattle.std.specs.Prelude.{Bool, ◌≡◌, ℕ, ◌-◌, ◌*◌, ◌≤◌, ◌<◌, length, get_or};
ghost use Rattle.bits.specs.Row.{member};
ghost use Rattle.program.specs.Program.{Targets, WellFormed};
ghost use Rattle.program.specs.Reading.{statements, Held};
ghost use Rattle.language.specs.Spelling.{variables, Valid};
ghost use Rattle.ctl.specs.Paths.{So};
ghost use Rattle.arms.specs.Arms.{told, asks, his, arm_of, arm_at, ArmsOf};
ghost use Rattle.arms.specs.Forced.{Forced, Kept, Lent};

use forcing::NONE;
use graph::ENTRIES;
use language::Statement;
use program::Program;

// The arm that is to be taken at a statement.
#[derive(Clone, Copy)]
enum Arm {
    None,
    Goto,
    Else,
}

// As it is told in the lent numbers.
impl From<Arm> for u8 {
    ghost from_gives = { λ arm n. n ≡ told arm };

    fn from(arm: Arm) -> u8 {
        match arm {
            Arm::None => 0,
            Arm::Goto => 1,
            Arm::Else => 2,
        }
    }
}

// Whether a statement is an `if` on a variable that is named.
fn asked(e: Statement, named: &[u64]) -> bool
    requires { Valid e × (variables ≤ length named.now * 64) }
    ensures { result ≡ asks (member named.now) e }
{
    if let Statement::Branch(x, _, _) = e {
        return bits::contains(named, x as usize);
    }
    false
}

// The places at which the driver picks, by the variables that are his.
fn own(p: Program, named: &[u64], mine: &mut [u64])
    requires held { Held p }
    requires well_formed { WellFormed (statements p) }
    requires variables_in_bounds { (variables ≤ length named.now * 64) × (p.count ≤ length mine.old * 64) }
    ensures { (s : ℕ) → s < p.count → member mine.new s ≡ his (statements p) (member named.now) s }
{
    bits::clear(mine);
    for s in 0..p.count {
        let t = encoding::statement_of(p.entries[s]);
        if asked(t, named) {
            bits::insert(mine, s);
        }
    }
}

// The arm of an `if` with the number k, whose arms lead to places with the numbers a and b: `goto` and `else`.
fn choose(own: bool, k: u32, a: u32, b: u32) -> Arm
    ensures { told result ≡ arm_of own k a b }
{
    if own {
        if k == 0 {
            return Arm::None;
        }
        if k == NONE {
            return Arm::None;
        }
        if a <= b {
            return Arm::Goto;
        }
        return Arm::Else;
    }
    if k != NONE {
        return Arm::None;
    }
    if a == NONE {
        return Arm::Goto;
    }
    Arm::Else
}

// The place of statement n.
fn place(n: u32) -> usize
    requires { 0 < n }
    ensures { result ≡ n - 1 }
{
    (n - 1) as usize
}

// The arm of the statement at place s, which is the driver's or not.
fn of_statement(e: Statement, own: bool, numbers: &[u32], s: usize) -> Arm
    requires { (s < length numbers.now) × Targets (length numbers.now) e }
    ensures { told result ≡ arm_at e own numbers.now s }
{
    if let Statement::Branch(_, n, m) = e {
        return choose(own, numbers[s], numbers[place(n)], numbers[place(m)]);
    }
    Arm::None
}

// The arms of the program's statements, with the driver's places in `mine`. What stands after them is kept.
fn fill(p: Program, mine: &[u64], numbers: &[u32], arms: &mut [u8])
    requires held { Held p }
    requires well_formed { WellFormed (statements p) }
    requires count_in_bounds { (p.count ≤ length mine.now * 64) × (p.count ≤ length numbers.now) × (p.count ≤ length arms.old) }
    ensures arms_of { ArmsOf (statements p) (member mine.now) numbers.now arms.new }
    ensures by_index { (s : ℕ) → p.count ≤ s → get_or arms.new s 0 ≡ get_or arms.old s 0 }
{
    for s in 0..p.count {
        let t = encoding::statement_of(p.entries[s]);
        let own = bits::contains(mine, s);
        arms[s] = u8::from(of_statement(t, own, numbers, s));
    }
}

// The numbers and the arms of the program's statements, with the driver's variables in `named`. What stands after them is kept.
pub fn of(
    p: Program,
    flow: &[u16],
    named: &[u64],
    goal: &[u64],
    numbers: &mut [u32],
    arms: &mut [u8],
)
    requires held { Held p }
    requires well_formed { WellFormed (statements p) }
    requires lent { Lent (statements p) p.count flow.now named.now goal.now numbers.old arms.old }
    ensures by_index { (f : ℕ → Bool) → ((x : ℕ) → member named.now x ≡ f x) → Forced (statements p) (his (statements p) f) (So (member goal.now)) numbers.new arms.new }
    ensures kept { Kept p.count numbers.old numbers.new arms.old arms.new }
{
    let mut mine = bits::blank();
    own(p, named, &mut mine);
    let forward = &flow[..ENTRIES];
    let backward = &flow[ENTRIES..];
    forcing::number(p.count, forward, backward, &mine, goal, numbers);
    fill(p, &mine, &*numbers, arms);
}
