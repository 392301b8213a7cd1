// Runs of VLAN ids with one owner, or with none.
ghost use Rattle.std.specs.Prelude.{◌≡◌, ◌≤◌, length, take_while};
ghost use Rattle.lab_view.specs.Runs.{is_same, owner_at, begins_run, run_length};

fn is_same(first: Option<usize>, second: Option<usize>) -> bool
    ensures { result ≡ is_same first second }
{
    match first {
        Some(own) => match second {
            Some(other) => own == other,
            None => false,
        },
        None => second.is_none(),
    }
}

/// The owner at a place, none beyond the last one.
pub fn owner_at(owners: &[Option<usize>], place: usize) -> Option<usize>
    ensures { result ≡ owner_at owners.now place }
{
    match owners.get(place) {
        Some(owner) => *owner,
        None => None,
    }
}

/// Whether a run of places with one owner, or with none, begins at a place.
pub fn begins_run(owners: &[Option<usize>], place: usize) -> bool
    ensures { result ≡ begins_run owners.now place }
{
    place == 0 || !is_same(owner_at(owners, place), owner_at(owners, place - 1))
}

fn same_front(owners: &[Option<usize>], owner: Option<usize>) -> usize
    ensures { result ≡ length (take_while (is_same owner) owners.now) }
{
    owners
        .iter()
        .take_while(|own| is_same(owner, **own))
        .count()
}

/// How many places from one on have its owner.
pub fn run_length(owners: &[Option<usize>], place: usize) -> usize
    requires { place ≤ length owners.now }
    ensures { result ≡ run_length owners.now place }
{
    same_front(&owners[place..], owner_at(owners, place))
}
