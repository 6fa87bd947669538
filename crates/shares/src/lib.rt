// What each of up to eight jobs gets of a pass (document 02, request 12).
#![tactic(auto)]

ghost use Rattle.std.specs.Prelude.{◌≡◌, eqb, not, ◌-◌, ◌/◌, ◌≤◌, min, length, replicate};
ghost use Rattle.std.specs.List.{count_by, list_all};
ghost use Rattle.base.specs.Blit.{blit};
ghost use Rattle.passes.specs.Passes.{bases, given, shared};
ghost use Rattle.shares.specs.Eights.{list_of, jobs_from, jobs_of, number_of, GivenAs, SharedAs};

// Eight numbers, as the C interface has them.
#[repr(C)]
#[derive(Clone, Copy)]
pub struct Eight {
    pub a: u64,
    pub b: u64,
    pub c: u64,
    pub d: u64,
    pub e: u64,
    pub f: u64,
    pub g: u64,
    pub h: u64,
}

impl From<Eight> for [u64; 8] {
    ghost from_gives = { λ e numbers. numbers ≡ list_of e };

    fn from(e: Eight) -> [u64; 8] {
        [e.a, e.b, e.c, e.d, e.e, e.f, e.g, e.h]
    }
}

impl From<[u64; 8]> for Eight {
    ghost from_gives = { λ numbers e. list_of e ≡ numbers };

    fn from(numbers: [u64; 8]) -> Eight {
        let [a, b, c, d, e, f, g, h] = numbers;
        Eight {
            a,
            b,
            c,
            d,
            e,
            f,
            g,
            h,
        }
    }
}

// A refusal's number, 0 where there is none; the stores that each job gets, 0 past the jobs.
#[repr(C)]
#[derive(Drop)]
pub struct Shares {
    pub number: u64,
    pub shares: Eight,
}

// Why nothing is shared.
#[derive(Clone, Copy, Debug, PartialEq, Eq)]
enum Refusal {
    // There is no job, or more than eight.
    Jobs,
    // There is nothing to give, or a cap is 0.
    Nothing,
}

impl Refusal {
    // Its number at the C interface.
    fn number(self) -> u64
        ensures { result ≡ number_of self }
    {
        match self {
            Refusal::Jobs => 31,
            Refusal::Nothing => 32,
        }
    }
}

// What a job gets at least, where U divided by the unfinished jobs is q.
fn least(cap: u64, left: u64, q: u64) -> u64
    ensures { result ≡ min cap (min left q) }
{
    cap.min(left.min(q))
}

// Whether each of these caps is above 0.
fn is_capped(caps: &[u64]) -> bool
    ensures { result ≡ list_all (λ cap. not (eqb cap 0)) caps.now }
{
    caps.iter().all(|&cap| cap != 0)
}

// How many of these jobs are unfinished.
fn count(left: &[u64]) -> u64
    ensures { result ≡ count_by (λ stores. not (eqb stores 0)) left.now }
{
    left.iter().filter(|&&stores| stores != 0).count() as u64
}

// What is left over of U, once each job has its least.
fn left_over(u: u64, q: u64, caps: &[u64], left: &[u64]) -> u64
    requires enough { bases q (jobs_of caps.now left.now) ≤ u }
    requires paired { length left.now ≡ length caps.now }
    ensures { result ≡ u - bases q (jobs_of caps.now left.now) }
{
    let mut rest = u;
    for i in 0..caps.len() {
        rest -= least(caps[i], left[i], q);
    }
    rest
}

// The least of each job, and the rest in their order, to each all it may take.
fn give(q: u64, over: u64, caps: &[u64], left: &[u64]) -> [u64; 8]
    requires paired { length left.now ≡ length caps.now }
    requires few { length caps.now ≤ 8 }
    ensures { result ≡ blit 0 (given q over (jobs_of caps.now left.now)) (replicate 8 0) }
{
    let mut shares = [0; 8];
    let mut rest = over;
    for i in 0..caps.len() {
        let base = least(caps[i], left[i], q);
        let more = rest.min(caps[i].min(left[i]) - base);
        shares[i] = base + more;
        rest -= more;
    }
    shares
}

// What each job gets of a pass that has u stores to give, 0 past the jobs.
fn shared(u: u64, jobs: u64, caps: [u64; 8], left: [u64; 8]) -> Result<[u64; 8], Refusal>
    ensures { GivenAs (shared u (jobs_from caps left 0 jobs)) result }
{
    if jobs == 0 || 8 < jobs {
        return Err(Refusal::Jobs);
    }
    let n = jobs as usize;
    let caps = &caps[..n];
    let left = &left[..n];
    if u == 0 || !is_capped(caps) {
        return Err(Refusal::Nothing);
    }
    let q = u.checked_div(count(left)).unwrap_or(0);
    let over = left_over(u, q, caps, left);
    Ok(give(q, over, caps, left))
}

// What each of so many jobs gets of a pass that has u stores to give, by their caps and what they have left.
pub fn share(u: u64, jobs: u64, caps: Eight, left: Eight) -> Shares
    ensures { SharedAs (shared u (jobs_from (list_of caps) (list_of left) 0 jobs)) result }
{
    match shared(u, jobs, caps.into(), left.into()) {
        Ok(shares) => Shares {
            number: 0,
            shares: shares.into(),
        },
        Err(refusal) => Shares {
            number: refusal.number(),
            shares: [0; 8].into(),
        },
    }
}
