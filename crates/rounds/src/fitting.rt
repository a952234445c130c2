// The best fit of the included receptions.
ghost use Rattle.std.specs.Prelude.{◌≡◌, ◌≤◌};
ghost use Rattle.sets.specs.Mask.{has};
ghost use Rattle.best.specs.Held.{receptions};
ghost use Rattle.rounds.specs.Held.{gathered, previous_of, held_over};

use best::{BestAt, Unfit};
use problem::Altitude;

// The included receptions, and the parameters that the round before found, if there was one.
#[derive(Clone, Copy)]
pub struct State {
    pub included: u32,
    pub previous: Option<[f64; 4]>,
}

// k receptions by their indices, sites and times.
#[derive(Clone, Copy)]
pub struct Gathered {
    pub k: usize,
    pub index: [usize; 32],
    pub sites: [f64; 96],
    pub z: [f64; 32],
}

// The included receptions.
pub fn subset(site: &[f64; 96], z: &[f64; 32], n: usize, included: u32) -> Gathered
    requires { n ≤ 32 }
    ensures { result ≡ gathered site.now z.now n (has included) }
{
    let mut index = [0usize; 32];
    let k = sets::members(included, n, &mut index);
    let mut sites = [0.0; 96];
    problem::gather_sites(site, &index, k, &mut sites);
    let mut times = [0.0; 32];
    problem::gather(z, &index, k, &mut times);
    Gathered {
        k,
        index,
        sites,
        z: times,
    }
}

// Their best fit, its place and its rounding norm, where the parameters of the round before lead the starts.
pub fn fit_included(
    site: &[f64; 96],
    z: &[f64; 32],
    noise: &[f64; 32],
    clock: &[f64; 1024],
    n: usize,
    altitude: Altitude,
    state: State,
) -> Result<BestAt, Unfit>
    requires { n ≤ 32 }
    ensures { result ≡ held_over
        (receptions site.now z.now noise.now clock.now n altitude)
        (has state.included) (previous_of state) }
{
    let included = state.included;
    // `starts` takes whether there was a round before beside its parameters.
    let had = state.previous.is_some();
    let previous = state.previous.unwrap_or([0.0; 4]);
    let chosen = subset(site, z, n, included);
    let k = chosen.k;
    let index = chosen.index;
    let sites = chosen.sites;
    let times = chosen.z;
    let points = starts::starts(had, previous, &sites, &times, k, altitude);
    let count = points.n;
    let at = points.at;
    best::best_fit(
        clock, n, noise, &index, &sites, &times, k, altitude, &at, count,
    )
}
