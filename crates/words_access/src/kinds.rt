// Kinds that stand in a word by their numbers, and a kind and a number above it in one number.
ghost use Rattle.std.specs.Prelude.{◌≡◌, ℕ, ◌+◌, ◌*◌, ◌/◌, ◌%◌, ◌^◌, ◌<◌, eqb, false};
ghost use Rattle.words.specs.Session.{side_cases, before_cases, outcome_cases, side_number, side_of, before_number, before_of, outcome_number, outcome_of, flag_number};
ghost use Rattle.words.specs.State.{role_number, role_in};
ghost use Rattle.state.specs.declared.Side.TheVariants as side;
ghost use Rattle.state.specs.declared.Before.TheVariants as before;
ghost use Rattle.state.specs.declared.Outcome.TheVariants as outcome;
ghost use Rattle.wire.specs.declared.Role.TheVariants as role;
ghost use Rattle.words.proofs.Sessions.{side_small, before_small, outcome_small, flag_small, side_back, side_number_lem, before_back, before_number_lem, outcome_back, outcome_number_lem, flag_back, flag_number_lem};
ghost use Rattle.words.proofs.States.{role_small, role_back, role_number_lem};

use state::{Before, Outcome, Side};
use wire::Role;

// A kind whose cases are numbered from 0 on.
pub(crate) trait Numbered: Copy {
    ghost CASES: { ℕ };

    ghost number_of: { Self → ℕ };

    ghost numbered: { ℕ → Self };

    const CASES: u64;

    fn number(self) -> u64
        ensures value { result ≡ number_of self }
        ensures small { result < CASES };

    // The case of a number; a number above those of the cases has one of them too.
    fn from_number(n: u64) -> Self
        ensures { result ≡ numbered n };

    ghost some: { 0 < CASES };

    // Each case is given back by its number, and each number below that of the cases by its case.
    ghost given_back: { (x : Self) → numbered (number_of x) ≡ x };

    ghost kept: { (n : ℕ) → n < CASES → number_of (numbered n) ≡ n };
}

impl Numbered for Side {
    ghost CASES = { side_cases };

    ghost number_of = { side_number };

    ghost numbered = { side_of };

    ghost some = { side_small side.Open };

    ghost given_back = { side_back };

    ghost kept = { side_number_lem };

    const CASES: u64 = 3;

    fn number(self) -> u64 {
        self as u64
    }

    #[tactic(auto, unfolding(words::specs::Session::side_of, laws::specs::Pick::pick))]
    fn from_number(n: u64) -> Side {
        match n {
            0 => Side::Open,
            1 => Side::Finished,
            _ => Side::Ended,
        }
    }
}

impl Numbered for Before {
    ghost CASES = { before_cases };

    ghost number_of = { before_number };

    ghost numbered = { before_of };

    ghost some = { before_small before.Idle };

    ghost given_back = { before_back };

    ghost kept = { before_number_lem };

    const CASES: u64 = 3;

    fn number(self) -> u64 {
        self as u64
    }

    #[tactic(auto, unfolding(words::specs::Session::before_of, laws::specs::Pick::pick))]
    fn from_number(n: u64) -> Before {
        match n {
            0 => Before::Idle,
            1 => Before::Finished,
            _ => Before::Ended,
        }
    }
}

impl Numbered for Outcome {
    ghost CASES = { outcome_cases };

    ghost number_of = { outcome_number };

    ghost numbered = { outcome_of };

    ghost some = { outcome_small outcome.None };

    ghost given_back = { outcome_back };

    ghost kept = { outcome_number_lem };

    const CASES: u64 = 5;

    fn number(self) -> u64 {
        self as u64
    }

    #[tactic(auto, unfolding(words::specs::Session::outcome_of, laws::specs::Pick::pick))]
    fn from_number(n: u64) -> Outcome {
        match n {
            0 => Outcome::None,
            1 => Outcome::Running,
            2 => Outcome::Complete,
            3 => Outcome::MayRetry,
            _ => Outcome::MustNotRetry,
        }
    }
}

impl Numbered for Role {
    ghost CASES = { 2 };

    ghost number_of = { role_number };

    ghost numbered = { role_in };

    ghost some = { role_small role.Client };

    ghost given_back = { role_back };

    ghost kept = { role_number_lem };

    const CASES: u64 = 2;

    fn number(self) -> u64 {
        self as u64
    }

    #[tactic(auto, unfolding(words::specs::State::role_in, laws::specs::Pick::pick))]
    fn from_number(n: u64) -> Role {
        match n {
            0 => Role::Client,
            _ => Role::Server,
        }
    }
}

impl Numbered for bool {
    ghost CASES = { 2 };

    ghost number_of = { flag_number };

    ghost numbered = { λ n. eqb n 1 };

    ghost some = { flag_small false };

    ghost given_back = { flag_back };

    ghost kept = { flag_number_lem };

    const CASES: u64 = 2;

    fn number(self) -> u64 {
        u64::from(self)
    }

    fn from_number(n: u64) -> bool {
        n == 1
    }
}

// The number of a kind with a number above it.
pub(crate) fn join<K: Numbered>(kind: K, above: u64) -> u64
    requires { K.CASES * above + K.number_of kind < 2 ^ 64 }
    ensures { result ≡ K.CASES * above + K.number_of kind }
{
    K::CASES * above + kind.number()
}

// The kind that a number has, and the number above it.
pub(crate) fn split<K: Numbered>(n: u64) -> (K, u64)
    ensures kind { result.0 ≡ K.numbered (n % K.CASES) }
    ensures above { result.1 ≡ n / K.CASES }
{
    (K::from_number(n % K::CASES), n / K::CASES)
}
