// The factor graph as a plain value, and the calls that register its variables and factors.
#![tactic(auto)]

pub mod checks;
pub mod refusal;

ghost use Rattle.std.specs.Prelude.{◌≡◌, true, cond, not, ◌↔◌, ℕ, ◌+◌, ◌*◌, ◌<◌, ◌≤◌, length};
ghost use Rattle.factor.specs.Limits.{max_variables, max_factors, max_keys, most_numbers};
ghost use Rattle.factor.specs.Factor.{fits};
ghost use Rattle.graph.specs.Record as spec;
ghost use Rattle.graph.specs.Registration as calls;
ghost use Rattle.graph.specs.Reached.{Reached};
ghost use Rattle.graph.specs.Told.{call_told, factor_verdict_told};

use checks::{counts_fit, scalar, size_fits};
use cholesky::Fault;
use factor::Factor;
use factor::limits::{FACTORS, KEYS, TOTAL, VARIABLES};
use refusal::Refusal;

// The name of a variable: a letter and an index.
#[derive(Clone, Copy, PartialEq, Eq)]
pub struct Symbol(pub u32, pub u32);

impl Symbol {
    // The letter and the index as one number.
    fn whole(self) -> u64
        ensures { result ≡ self.1 * 0x100000000 + self.0 }
    {
        u64::from(self.1) * 0x1_0000_0000 + u64::from(self.0)
    }

    // The same letter and the same index: one comparison, where `==` makes two.
    #[tactic(auto, unfolding(crate::specs::Record::same, factor::specs::Counting::every))]
    fn is(self, other: Symbol) -> bool
        ensures { result ≡ spec.same self other }
    {
        self.whole() == other.whole()
    }
}

// The variables, each at its key, which is its place in the order of registration; and the factors. Unused places hold zeros, and
// nothing is kept that can be worked out, so equal graphs are equal records.
#[derive(Clone, Copy, PartialEq, Eq)]
pub struct Graph {
    pub symbols: [Symbol; VARIABLES],
    pub sizes: [u8; VARIABLES],
    pub variables: usize,
    pub factors: [Factor; FACTORS],
    pub count: usize,
}

impl Graph {
    // No variables and no factors.
    pub fn new() -> Graph
        ensures { result ≡ spec.fresh }
    {
        let none = Factor {
            prior: false,
            touched: 0,
            rows: 0,
            keys: [0; KEYS],
            live: false,
        };
        Graph {
            symbols: [Symbol(0, 0); VARIABLES],
            sizes: [0; VARIABLES],
            variables: 0,
            factors: [none; FACTORS],
            count: 0,
        }
    }

    // None of the first n variables has the name. No name ends the loop early: so several are compared at once.
    fn free(&self, n: usize, name: Symbol) -> bool
        requires { n ≤ max_variables }
        ensures { result ≡ spec.free self.now n name }
    {
        let mut free = true;
        for &other in &self.symbols[..n] {
            free = !other.is(name) && free;
        }
        free
    }

    // All sizes, added up.
    fn total(&self) -> usize
        ensures { result ≡ spec.total self.now }
    {
        let mut sum = 0;
        for size in self.sizes {
            sum += usize::from(size);
        }
        sum
    }

    // A place of the variables that is used holds a name unlike those before it, and a size; one that is not used holds nothing.
    #[tactic(auto, unfolding(crate::specs::Record::variable_place, crate::specs::Record::registered, crate::specs::Record::clear, crate::specs::Record::same, factor::specs::Counting::every))]
    fn variable_place(&self, key: usize) -> bool
        requires { key < max_variables }
        ensures { result ≡ spec.variable_place self.now key }
    {
        let name = self.symbols[key];
        let size = usize::from(self.sizes[key]);
        if key < self.variables {
            scalar(name.0) && size_fits(size) && self.free(key, name)
        } else {
            name == Symbol(0, 0) && size == 0
        }
    }

    fn variables_fit(&self) -> bool
        ensures { result ≡ spec.variables_fit self.now }
    {
        (0..VARIABLES).all(|key| self.variable_place(key))
    }

    // A place of the factors that is used holds a factor of registered keys; one that is not used holds nothing.
    #[tactic(auto, unfolding(crate::specs::Record::factor_place))]
    fn factor_place(&self, number: usize) -> bool
        requires { number < max_factors }
        ensures { (result ≡ spec.factor_place self.now number) × (length (spec.factor_at self.now number).keys ≡ max_keys) }
    {
        let f = self.factors[number];
        if number < self.count {
            f.fits(self.sizes, self.variables)
        } else {
            f.is_clear()
        }
    }

    fn factors_fit(&self) -> bool
        ensures value { result ≡ spec.factors_fit self.now }
        ensures i_len { result ≡ true → (i : ℕ) → i < max_factors → length (spec.factor_at self.now i).keys ≡ max_keys }
    {
        for number in 0..FACTORS {
            if !self.factor_place(number) {
                return false;
            }
        }
        true
    }

    // There is such a factor, and no other has superseded it.
    #[tactic(auto, unfolding(crate::specs::Record::live_at, factor::specs::Counting::every))]
    pub fn is_live(self, number: usize) -> bool
        ensures { result ≡ spec.live_at self number }
    {
        number < self.count && number < FACTORS && self.factors[number].live
    }

    // The record is one that some list of registering calls yields.
    #[tactic(auto, unfolding(crate::specs::Record::valid, crate::specs::Record::last_live, factor::specs::Counting::every))]
    pub fn valid(self) -> bool
        ensures { (result ≡ spec.valid self) × ((result ≡ true) ↔ Reached self) }
    {
        self.variables <= VARIABLES
            && self.count <= FACTORS
            && self.variables_fit()
            && self.total() <= TOTAL
            && self.factors_fit()
            && (self.count == 0 || self.is_live(self.count - 1))
    }

    // Where the numbers of a factor begin in the factor store; at the count of factors, where the next one's will.
    pub fn offset(self, number: usize) -> usize
        requires { (spec.valid self ≡ true) × (number ≤ self.count) }
        ensures { (result ≡ spec.offset self number) × (result ≤ most_numbers * max_factors) }
    {
        let mut sum = 0;
        for f in &self.factors[..number] {
            sum += f.numbers(self.sizes);
        }
        sum
    }

    // A variable gets the next key, in a record known to be valid: `add_variable` without its test.
    #[tactic(auto, unfolding(crate::specs::Registration::add_variable, factor::specs::Counting::every))]
    pub fn enter_variable(&mut self, name: Symbol, size: usize) -> Result<usize, Refusal>
        requires { spec.valid self.old ≡ true }
        ensures graph_after { self.new ≡ (calls.add_variable self.old name size).graph }
        ensures value { result ≡ (calls.add_variable self.old name size).outcome }
    {
        if !scalar(name.0) {
            return Err(Refusal::NotALetter);
        }
        if !size_fits(size) {
            return Err(Refusal::SizeOutside);
        }
        let n = self.variables;
        if !self.free(n, name) {
            return Err(Refusal::NameTaken);
        }
        if VARIABLES <= n || TOTAL < self.total() + size {
            return Err(Refusal::PastLimit);
        }
        self.symbols[n] = name;
        self.sizes[n] = size as u8;
        self.variables = n + 1;
        Ok(n)
    }

    // A variable gets the next key.
    #[tactic(auto, unfolding(crate::specs::Registration::add_variable))]
    pub fn add_variable(&mut self, name: Symbol, size: usize) -> Result<usize, Refusal>
        ensures graph_after { self.new ≡ (calls.add_variable self.old name size).graph }
        ensures value { result ≡ (calls.add_variable self.old name size).outcome }
        ensures outcome_value { call_told result ≡ call_told (calls.add_variable self.old name size).outcome }
    {
        if !self.valid() {
            return Err(Refusal::NoSuchGraph);
        }
        self.enter_variable(name, size)
    }

    // A factor gets the next number, and its numbers follow the last one's. Priors and observations share the checks from the lengths on.
    #[tactic(auto, unfolding(crate::specs::Registration::factor_verdict))]
    fn add_factor(
        &mut self,
        f: Factor,
        a: &[f64],
        mean: &[f64],
        variance: &[f64],
        store: &mut [f64],
    ) -> Result<usize, Refusal>
        requires { (spec.valid self.old ≡ true) × (fits self.old.sizes self.old.variables f ≡ true) }
        ensures graph_after { self.new ≡
            (calls.settle self.old f (calls.factor_verdict self.old f a.now mean.now variance.now store.old)).graph }
        ensures value { result ≡
            (calls.settle self.old f (calls.factor_verdict self.old f a.now mean.now variance.now store.old)).outcome }
        ensures store_after { store.new ≡ calls.stored self.old store.old
            (calls.factor_verdict self.old f a.now mean.now variance.now store.old) }
    {
        let sizes = self.sizes;
        if !f.lengths_fit(sizes, a.len(), mean.len(), variance.len()) {
            return Err(Refusal::LengthUnlike);
        }
        let n = self.count;
        if FACTORS <= n {
            return Err(Refusal::PastLimit);
        }
        let start = self.offset(n);
        if store.len() < start + f.numbers(sizes) {
            return Err(Refusal::FactorStoreShort);
        }
        if !factor::weighing::given_finite(a, mean, variance) {
            return Err(Refusal::NotFinite);
        }
        if !factor::weighing::symmetric(variance, mean.len()) {
            return Err(Refusal::NotSymmetric);
        }
        match factor::weighing::store_factor(store, start, a, mean, variance, mean.len()) {
            Ok(()) => {}
            Err(Fault::Pivot) => return Err(Refusal::VariancePivot),
            Err(Fault::NotFinite) => return Err(Refusal::NotFinite),
        }
        self.factors[n] = f;
        self.count = n + 1;
        Ok(n)
    }

    // A prior on a key, in a record known to be valid: `add_prior` without its test.
    #[tactic(auto, unfolding(crate::specs::Registration::add_prior, crate::specs::Registration::prior_store, crate::specs::Registration::prior_verdict))]
    pub fn enter_prior(
        &mut self,
        key: usize,
        mean: &[f64],
        variance: &[f64],
        store: &mut [f64],
    ) -> Result<usize, Refusal>
        requires { spec.valid self.old ≡ true }
        ensures graph_after { self.new ≡ (calls.add_prior self.old key mean.now variance.now store.old).graph }
        ensures value { result ≡ (calls.add_prior self.old key mean.now variance.now store.old).outcome }
        ensures store_after { store.new ≡ calls.prior_store self.old key mean.now variance.now store.old }
    {
        if self.variables <= key {
            return Err(Refusal::NoSuchKey);
        }
        let f = factor::prior_of(key, factor::size_of(self.sizes, key));
        self.add_factor(f, &[], mean, variance, store)
    }

    // A prior on a key: xi and W are stored.
    #[tactic(auto, using(crate::proofs::Telling::settled, crate::proofs::Telling::refused_tells), unfolding(crate::specs::Registration::add_prior, crate::specs::Registration::prior_store, crate::specs::Registration::prior_verdict))]
    pub fn add_prior(
        &mut self,
        key: usize,
        mean: &[f64],
        variance: &[f64],
        store: &mut [f64],
    ) -> Result<usize, Refusal>
        ensures graph_after { self.new ≡ (calls.add_prior self.old key mean.now variance.now store.old).graph }
        ensures value { result ≡ (calls.add_prior self.old key mean.now variance.now store.old).outcome }
        ensures store_after { store.new ≡ calls.prior_store self.old key mean.now variance.now store.old }
        ensures outcome_value { call_told result ≡
            factor_verdict_told self.old (calls.prior_verdict self.old key mean.now variance.now store.old) }
    {
        if !self.valid() {
            return Err(Refusal::NoSuchGraph);
        }
        self.enter_prior(key, mean, variance, store)
    }

    // An observation of keys, in a record known to be valid: `add_observation` without its test.
    #[tactic(auto, unfolding(crate::specs::Registration::add_observation, crate::specs::Registration::observation_store, crate::specs::Registration::observation_verdict))]
    pub fn enter_observation(
        &mut self,
        keys: &[usize],
        rows: usize,
        a: &[f64],
        mean: &[f64],
        variance: &[f64],
        store: &mut [f64],
    ) -> Result<usize, Refusal>
        requires { spec.valid self.old ≡ true }
        ensures graph_after { self.new ≡
            (calls.add_observation self.old keys.now rows a.now mean.now variance.now store.old).graph }
        ensures value { result ≡
            (calls.add_observation self.old keys.now rows a.now mean.now variance.now store.old).outcome }
        ensures store_after { store.new ≡
            calls.observation_store self.old keys.now rows a.now mean.now variance.now store.old }
    {
        if !counts_fit(keys.len(), rows) {
            return Err(Refusal::CountOutside);
        }
        if !factor::lists::rising(keys) {
            return Err(Refusal::KeysNotRising);
        }
        if !factor::lists::known(self.variables, keys) {
            return Err(Refusal::NoSuchKey);
        }
        let f = factor::observation_of(keys, rows);
        self.add_factor(f, a, mean, variance, store)
    }

    // An observation of keys, rising, by rows of A: A, xi and W are stored.
    #[tactic(auto, using(crate::proofs::Telling::settled, crate::proofs::Telling::refused_tells), unfolding(crate::specs::Registration::add_observation, crate::specs::Registration::observation_store, crate::specs::Registration::observation_verdict))]
    pub fn add_observation(
        &mut self,
        keys: &[usize],
        rows: usize,
        a: &[f64],
        mean: &[f64],
        variance: &[f64],
        store: &mut [f64],
    ) -> Result<usize, Refusal>
        ensures graph_after { self.new ≡
            (calls.add_observation self.old keys.now rows a.now mean.now variance.now store.old).graph }
        ensures value { result ≡
            (calls.add_observation self.old keys.now rows a.now mean.now variance.now store.old).outcome }
        ensures store_after { store.new ≡
            calls.observation_store self.old keys.now rows a.now mean.now variance.now store.old }
        ensures outcome_value { call_told result ≡ factor_verdict_told self.old
            (calls.observation_verdict self.old keys.now rows a.now mean.now variance.now store.old) }
    {
        if !self.valid() {
            return Err(Refusal::NoSuchGraph);
        }
        self.enter_observation(keys, rows, a, mean, variance, store)
    }

    // The factor is no longer live; it keeps its number and its numbers.
    pub fn retire(&mut self, number: usize)
        requires { number < max_factors }
        ensures { self.new ≡ calls.retired self.old number }
    {
        self.factors[number].live = false;
    }

    // What a call that supersedes a factor is refused for, before the new factor is looked at.
    fn check_live(self, number: usize) -> Result<(), Refusal>
        ensures { result ≡ cond (not (spec.valid self)) (Err Refusal.NoSuchGraph)
            (cond (not (spec.live_at self number)) (Err Refusal.NotLive) (Ok tt)) }
    {
        if !self.valid() {
            return Err(Refusal::NoSuchGraph);
        }
        if !self.is_live(number) {
            return Err(Refusal::NotLive);
        }
        Ok(())
    }

    // A prior in place of a live factor, which is retired if the prior is accepted.
    #[tactic(auto, using(crate::proofs::Validity::live_checked), unfolding(crate::specs::Registration::superseding, crate::specs::Registration::superseding_store))]
    pub fn supersede_prior(
        &mut self,
        number: usize,
        key: usize,
        mean: &[f64],
        variance: &[f64],
        store: &mut [f64],
    ) -> Result<usize, Refusal>
        ensures graph_after { self.new ≡
            (calls.superseding self.old number (calls.add_prior self.old key mean.now variance.now store.old)).graph }
        ensures value { result ≡
            (calls.superseding self.old number (calls.add_prior self.old key mean.now variance.now store.old)).outcome }
        ensures store_after { store.new ≡ calls.superseding_store self.old number store.old
            (calls.prior_store self.old key mean.now variance.now store.old) }
        ensures outcome_value { call_told result ≡ call_told
            (calls.superseding self.old number (calls.add_prior self.old key mean.now variance.now store.old)).outcome }
    {
        self.check_live(number)?;
        let new = self.enter_prior(key, mean, variance, store)?;
        self.retire(number);
        Ok(new)
    }

    // An observation in place of a live factor, which is retired if the observation is accepted.
    #[tactic(auto, using(crate::proofs::Validity::live_checked), unfolding(crate::specs::Registration::superseding, crate::specs::Registration::superseding_store))]
    pub fn supersede_observation(
        &mut self,
        number: usize,
        keys: &[usize],
        rows: usize,
        a: &[f64],
        mean: &[f64],
        variance: &[f64],
        store: &mut [f64],
    ) -> Result<usize, Refusal>
        ensures graph_after { self.new ≡ (calls.superseding self.old number
            (calls.add_observation self.old keys.now rows a.now mean.now variance.now store.old)).graph }
        ensures value { result ≡ (calls.superseding self.old number
            (calls.add_observation self.old keys.now rows a.now mean.now variance.now store.old)).outcome }
        ensures store_after { store.new ≡ calls.superseding_store self.old number store.old
            (calls.observation_store self.old keys.now rows a.now mean.now variance.now store.old) }
        ensures outcome_value { call_told result ≡ call_told (calls.superseding self.old number
            (calls.add_observation self.old keys.now rows a.now mean.now variance.now store.old)).outcome }
    {
        self.check_live(number)?;
        let new = self.enter_observation(keys, rows, a, mean, variance, store)?;
        self.retire(number);
        Ok(new)
    }
}
