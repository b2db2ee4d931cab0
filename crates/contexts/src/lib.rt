// The state of a reading, and the contexts of providers.
#![tactic(auto)]

ghost use Rattle.std.specs.Prelude.{◌≡◌, ◌+◌, ◌<◌, ◌≤◌, set};
ghost use Rattle.contexts.specs.Context.{opening, belongs_to, find_id, moved, rated, entering, provider_of, rate_of};

// Where a reading stands: its place, the tick rate of each context, the provider ids as opened, and the current context,
// 0 for the one with no provider and n for that of the n-th id.
#[derive(Clone, Copy)]
pub struct State {
    pub place: usize,
    pub rates: [u64; 9],
    pub ids: [u32; 8],
    pub count: usize,
    pub current: usize,
}

// The state of an opened archive.
pub fn opening_state() -> State
    ensures { result ≡ opening }
{
    State {
        place: 0,
        rates: [1000000000; 9],
        ids: [0; 8],
        count: 0,
        current: 0,
    }
}

// Whether a state can belong to an archive of n bytes.
pub fn belongs(s: State, n: usize) -> bool
    ensures { result ≡ belongs_to s n }
{
    s.place % 8 == 0 && s.place <= n && s.count <= 8 && s.current <= s.count
}

// The slot of a provider id among the first `count`.
fn find_id(ids: [u32; 8], count: usize, id: u32) -> Option<usize>
    requires { count ≤ 8 }
    ensures { result ≡ find_id ids count id }
{
    ids[..count].iter().position(|&own| own == id)
}

// All of these with the n-th replaced, where there is an n-th.
fn with<T: Copy, const N: usize>(all: [T; N], n: usize, value: T) -> [T; N]
    ensures { result ≡ set all n value }
{
    let mut changed = all;
    if n < N {
        changed[n] = value;
    }
    changed
}

// The state at another place.
pub fn move_to(s: State, place: usize) -> State
    ensures { result ≡ moved s place }
{
    State { place, ..s }
}

// The state at another place and with another tick rate of the current context.
pub fn set_rate(s: State, rate: u64, place: usize) -> State
    ensures { result ≡ rated s rate place }
{
    State {
        place,
        rates: with(s.rates, s.current, rate),
        ..s
    }
}

// The state at another place, in the context of an id, unless that would be a ninth id.
pub fn enter(s: State, id: u32, place: usize) -> Option<State>
    requires { s.count ≤ 8 }
    ensures { result ≡ entering s id place }
{
    let count = s.count;
    match find_id(s.ids, count, id) {
        Some(slot) => Some(State {
            place,
            current: slot + 1,
            ..s
        }),
        None if count == 8 => None,
        None => Some(State {
            place,
            rates: with(s.rates, count + 1, 1000000000),
            ids: with(s.ids, count, id),
            count: count + 1,
            current: count + 1,
        }),
    }
}

// The id of the provider of the current context, if it has one.
pub fn provider_of(s: State) -> Option<u32>
    requires { s.current ≤ 8 }
    ensures { result ≡ provider_of s }
{
    if s.current == 0 {
        return None;
    }
    Some(s.ids[s.current - 1])
}

// The rate in force, that of the current context.
pub fn rate_of(s: State) -> u64
    requires { s.current ≤ 8 }
    ensures { result ≡ rate_of s }
{
    s.rates[s.current]
}
