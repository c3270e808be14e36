// What the functions of a thread keep, and all that its templates read and change.

ghost use Rattle.std.specs.Prelude.{◌≡◌, IfOk, option_map};
ghost use Rattle.var_functions.specs.RunProps.{property_of};
ghost use Rattle.var_functions.specs.FunctionState.{first_functions, first_state, drawn, draw, count, IsLater};

use crate::props::Props;
use jm_base::M;
use rand_chacha::ChaCha8Rng;
use rand_core::SeedableRng;
use rand_core::utils::NextWord;
use std::alloc::Global;
use std::marker::Model;
use thread_vars::Vars;

/// What the functions of a thread keep: the properties of the run, the thread's number in its group, the count of
/// `__counter`, and the generator of random words.
pub struct FnState {
    props: Props,
    thread_num: u16,
    counted: u64,
    random: ChaCha8Rng,
}

// Written out, so that other crates let them go by one call.
impl Drop for FnState {
    fn drop(self) {
        let Self {
            props: _props,
            thread_num: _,
            counted: _,
            random: _,
        } = self;
    }
}

impl Model for FnState {
    ghost use Rattle.var_functions.specs.FunctionState.{Functions};

    ghost Value = { Functions };

    ghost view = { λ f. record { props = f.props; thread_num = f.thread_num; counted = f.counted; random = f.random } };
}

/// What the templates of a thread read and change.
#[derive(Drop)]
pub struct UserState {
    pub vars: Vars,
    pub fns: FnState,
}

/// ChaCha8 at the start of a stream, with the seed's eight bytes, the least first, and then 24 zeros as its key.
fn generator(seed: u64, stream: u64) -> ChaCha8Rng
    ensures { result ≡ first_state seed stream }
{
    let mut key = [0; 32];
    key[0..8].copy_from_slice(&seed.to_le_bytes());
    let mut random = ChaCha8Rng::from_seed(key);
    random.set_stream(stream);
    random
}

impl FnState {
    /// What the functions of a thread begin with. `thread_num` is its number in its group, from 1; the random words are
    /// those of the seed at this stream.
    pub fn new(alloc: Global, props: &Props, thread_num: u16, stream: u64, seed: u64) -> M<FnState>
        ensures { IfOk result (λ fns. fns ≡ first_functions props.now thread_num stream seed) }
    {
        Ok(FnState {
            props: props.copy(alloc)?,
            thread_num,
            counted: 0,
            random: generator(seed, stream),
        })
    }

    /// Draws a random word: two words of 32 bits of the generator, the low one first. It takes no memory.
    pub fn draw(&mut self) -> u64
        ensures word { result ≡ drawn self.old.random }
        ensures after { self.new ≡ draw self.old }
    {
        let low = self.random.next_word();
        let high = self.random.next_word();
        u64::from(low) + (u64::from(high) << 32)
    }

    /// Counts one more evaluation of `__counter`, and gives the count.
    pub(crate) fn count(&mut self) -> u64
        ensures counted { result ≡ (count self.old).counted }
        ensures after { self.new ≡ count self.old }
        ensures later { IsLater self.old self.new }
    {
        self.counted = self.counted.saturating_add(1);
        self.counted
    }

    /// The thread's number in its group.
    pub(crate) fn thread_num(&self) -> u16
        ensures { result ≡ self.now.thread_num }
    {
        self.thread_num
    }

    /// The value of the last property of this name.
    pub(crate) fn property(&self, name: &[u8]) -> Option<&[u8]>
        ensures { option_map (λ s. s.now) result ≡ property_of name.now self.now.props }
    {
        self.props.last(name)
    }
}
