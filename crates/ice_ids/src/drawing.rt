//! Drawing new ids.

ghost use Rattle.std.specs.Prelude.{◌≡◌, ℕ, Option, if◌then◌else◌};
ghost use Rattle.ice_ids.specs.declared.Id12.{Id12};
ghost use Rattle.ice_ids.specs.declared.Id8.{Id8};
ghost use Rattle.ice_ids.specs.Drawing.{IsSource, is_spent, count_left, count_drawn12, count_drawn8, count_after, stream_left, is_dry, stream_place, word_bytes, behind_word, two_words, stream_drawn12, stream_drawn8, stream_after, left_of, client_of, drawn12, after12, drawn8, after8, ids_of};

use crate::{Id8, Id12};
use rand_chacha::ChaCha20Rng;
use rand_core::SeedableRng;
use rand_core::utils::NextWord;

/// A source of a client's ids.
pub trait Ids {
    // How many draws are left, and whose ids they are.
    ghost left: { Self → ℕ };

    ghost client: { Self → ℕ };

    // What a draw answers, and the source behind it.
    ghost drawn12: { Self → Option Id12 };

    ghost after12: { Self → Self };

    ghost drawn8: { Self → Option Id8 };

    ghost after8: { Self → Self };

    /// The next object id, `None` exactly where nothing is left to draw. One draw fewer is left behind it; where nothing
    /// was left, all stays as it is.
    fn next12(&mut self) -> Option<Id12>
        ensures { (result ≡ drawn12 self.old) × (self.new ≡ after12 self.old) };

    /// The next node id, `None` exactly where nothing is left to draw. One draw fewer is left behind it; where nothing was
    /// left, all stays as it is.
    fn next8(&mut self) -> Option<Id8>
        ensures { (result ≡ drawn8 self.old) × (self.new ≡ after8 self.old) };

    // `None` comes at the end alone, and each draw moves on.
    ghost source12: { IsSource left client drawn12 after12 };

    ghost source8: { IsSource left client drawn8 after8 };
}

/// Ids from a client's number and a counter, which both kinds of ids share. Ids of clients with
/// other numbers, or of other counters, are others.
#[derive(Clone, Copy, Debug, PartialEq, Eq)]
pub struct CountIds {
    /// The client's number.
    pub client: u32,
    /// The number of ids that were drawn; at the greatest u32 nothing is left to draw.
    pub counter: u32,
}

impl CountIds {
    /// The ids of a client, from the first one.
    pub fn new(client: u32) -> CountIds
        ensures { result ≡ record { client = client; counter = 0 } }
    {
        CountIds { client, counter: 0 }
    }

    /// The ids of a client, from the one of this number.
    pub fn at(client: u32, counter: u32) -> CountIds
        ensures { result ≡ record { client = client; counter = counter } }
    {
        CountIds { client, counter }
    }

    /// The number of the next id, which is used up by this call; `None` where nothing is left.
    fn take_number(&mut self) -> Option<u32>
        ensures number { result ≡ (if is_spent self.old then None else Some self.old.counter) }
        ensures after { self.new ≡ count_after self.old }
    {
        let number = self.counter;
        self.counter = number.checked_add(1)?;
        Some(number)
    }
}

impl Ids for CountIds {
    ghost use Rattle.ice_ids.specs.Sources.{count_source12, count_source8};

    ghost left = { count_left };

    ghost client = { λ ids. ids.client };

    ghost drawn12 = { count_drawn12 };

    ghost after12 = { count_after };

    ghost drawn8 = { count_drawn8 };

    ghost after8 = { count_after };

    ghost source12 = { count_source12 };

    ghost source8 = { count_source8 };

    fn next12(&mut self) -> Option<Id12> {
        let number = self.take_number()?;
        let mut bytes = [0; 12];
        bytes[..4].copy_from_slice(&self.client.to_be_bytes());
        bytes[4..].copy_from_slice(&u64::from(number).to_be_bytes());
        Some(Id12(bytes))
    }

    fn next8(&mut self) -> Option<Id8> {
        let number = self.take_number()?;
        let mut bytes = [0; 8];
        bytes[..4].copy_from_slice(&self.client.to_be_bytes());
        bytes[4..].copy_from_slice(&number.to_be_bytes());
        Some(Id8(bytes))
    }
}

/// The most draws of a client from a stream, 2 to the 22nd: more than a script can ask for.
const MOST_STREAMED: u32 = 4_194_304;

/// Ids at random: 12 or 8 bytes of the key stream of ChaCha20 with the seed as its key and the client as its stream's
/// number. Each draw takes 16 bytes of the stream, of which an id is the first ones.
#[derive(Clone, Copy, Debug, PartialEq, Eq)]
pub struct StreamIds {
    /// The key.
    pub seed: [u8; 32],
    /// The client's number.
    pub client: u32,
    /// The number of ids that were drawn; at 4,194,304 nothing is left to draw.
    pub counter: u32,
}

/// The next word of a stream as bytes.
#[tactic(auto, unfolding(crate::specs::Drawing::word_bytes, crate::specs::Drawing::behind_word))]
pub fn word_bytes(stream: &mut ChaCha20Rng) -> [u8; 4]
    ensures bytes { result ≡ word_bytes stream.old }
    ensures after { stream.new ≡ behind_word stream.old }
{
    stream.next_word().to_le_bytes()
}

/// The next two words of a stream as bytes.
#[tactic(auto, unfolding(crate::specs::Drawing::word_bytes))]
pub fn two_words(stream: &mut ChaCha20Rng) -> [u8; 8]
    ensures bytes { result ≡ two_words stream.old }
    ensures after { stream.new ≡ behind_word (behind_word stream.old) }
{
    let mut bytes = [0; 8];
    bytes[..4].copy_from_slice(&word_bytes(stream));
    bytes[4..].copy_from_slice(&word_bytes(stream));
    bytes
}

impl StreamIds {
    /// The ids of a client, from the first one.
    pub fn new(seed: [u8; 32], client: u32) -> StreamIds
        ensures { result ≡ record { seed = seed; client = client; counter = 0 } }
    {
        StreamIds {
            seed,
            client,
            counter: 0,
        }
    }

    /// Whether nothing is left to draw.
    pub fn is_dry(&self) -> bool
        ensures { result ≡ is_dry self.now }
    {
        self.counter >= MOST_STREAMED
    }

    /// The key stream where the next id is read.
    pub fn stream(&self) -> ChaCha20Rng
        ensures { result ≡ stream_place self.now }
    {
        let mut stream = ChaCha20Rng::from_seed(self.seed);
        stream.set_stream(u64::from(self.client));
        stream.set_word_pos(u128::from(self.counter) * 4);
        stream
    }

    /// The stream at the next draw, which is used up by this call; `None` where nothing is left.
    fn take_stream(&mut self) -> Option<ChaCha20Rng>
        ensures stream { result ≡ (if is_dry self.old then None else Some (stream_place self.old)) }
        ensures after { self.new ≡ stream_after self.old }
    {
        if self.is_dry() {
            return None;
        }
        let stream = self.stream();
        self.counter += 1;
        Some(stream)
    }
}

impl Ids for StreamIds {
    ghost use Rattle.ice_ids.specs.Sources.{stream_source12, stream_source8};

    ghost left = { stream_left };

    ghost client = { λ ids. ids.client };

    ghost drawn12 = { stream_drawn12 };

    ghost after12 = { stream_after };

    ghost drawn8 = { stream_drawn8 };

    ghost after8 = { stream_after };

    ghost source12 = { stream_source12 };

    ghost source8 = { stream_source8 };

    #[tactic(auto, unfolding(crate::specs::Drawing::word_bytes))]
    fn next12(&mut self) -> Option<Id12> {
        let mut stream = self.take_stream()?;
        let mut bytes = [0; 12];
        bytes[..8].copy_from_slice(&two_words(&mut stream));
        bytes[8..].copy_from_slice(&word_bytes(&mut stream));
        Some(Id12(bytes))
    }

    fn next8(&mut self) -> Option<Id8> {
        let mut stream = self.take_stream()?;
        Some(Id8(two_words(&mut stream)))
    }
}

/// The ways to draw ids.
#[derive(Clone, Copy, Debug, PartialEq, Eq)]
pub enum Draw {
    /// By counting.
    Count,
    /// At random, from these 32 bytes.
    Stream([u8; 32]),
}

impl Draw {
    /// The ids of a client, from the first one.
    pub fn ids(&self, client: u32) -> AnyIds
        ensures { result ≡ ids_of self.now client }
    {
        match self {
            Draw::Count => AnyIds::Count(CountIds::new(client)),
            Draw::Stream(seed) => AnyIds::Stream(StreamIds::new(*seed, client)),
        }
    }
}

/// Ids drawn in one of these ways.
#[derive(Clone, Copy, Debug, PartialEq, Eq)]
pub enum AnyIds {
    /// By counting.
    Count(CountIds),
    /// At random.
    Stream(StreamIds),
}

impl Ids for AnyIds {
    ghost use Rattle.ice_ids.specs.Sources.{any_source12, any_source8};

    ghost left = { left_of };

    ghost client = { client_of };

    ghost drawn12 = { drawn12 };

    ghost after12 = { after12 };

    ghost drawn8 = { drawn8 };

    ghost after8 = { after8 };

    ghost source12 = { any_source12 };

    ghost source8 = { any_source8 };

    fn next12(&mut self) -> Option<Id12> {
        match self {
            AnyIds::Count(ids) => ids.next12(),
            AnyIds::Stream(ids) => ids.next12(),
        }
    }

    fn next8(&mut self) -> Option<Id8> {
        match self {
            AnyIds::Count(ids) => ids.next8(),
            AnyIds::Stream(ids) => ids.next8(),
        }
    }
}
