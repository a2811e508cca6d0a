// A call over files in memory, whose reads are counted, and of which a read, a put or a note may fail.
use eg_app::{Outcome, egasim};
use eg_base::{MemorySink, MemoryStore, ReadRefusal, Sink, Store};
use eg_tick::Ticks;
use std::alloc::Global;
use std::test::Fail;

/// A check file without an excess.
const CHECK: &str = "pedal,speed,raise,torque\n0,800,0,1\n";

/// A campaign of two runs of the same trace and image.
const CAMPAIGN: &str = r#"[[run]]
name = "a"
trace = "idle.csv"
image = "probe.hex"
slices = [[0, 0, 0, 10, 10, 0, 0, 0, 0]]
[[run]]
name = "b"
trace = "idle.csv"
image = "probe.hex"
"#;

/// Three runs of one group: without a fault, and with one that begins late.
const LATE: &str = r#"[[run]]
name = "a"
trace = "long.csv"
image = "idle.hex"
[[run]]
name = "b"
trace = "long.csv"
image = "idle.hex"
faults = [{ class = "flip", onset = 950, word = 3, mask = 1 }]
[[run]]
name = "c"
trace = "long.csv"
image = "idle.hex"
faults = [{ class = "halt", onset = 399 }]
"#;

/// A run, and two of another group, one of them with a fault that begins at once.
const EARLY: &str = r#"[[run]]
name = "a"
trace = "short.csv"
image = "idle.hex"
[[run]]
name = "b"
trace = "short.csv"
image = "full.hex"
[[run]]
name = "c"
trace = "short.csv"
image = "full.hex"
faults = [{ class = "path1-closed", onset = 0 }]
"#;

/// Four ticks without pedal at 800 revolutions.
const TRACE: &str = "pedal,speed,raise\n0,800,0\n0,800,0\n0,800,0\n0,800,0\n";

/// An image that reads the actual torque in one slice and again in the next, and gives the difference to the
/// throttle.
const PROBE: &str = "1210\n2220\n1a10\n2a10\nb442\nf000\nb642\n58d0\nc940\nf000\nd1f9\n";

/// An image that waits for ever.
const IDLE: &str = "f000\nd1fe\n";

/// An image that sets both outputs to 1000, and waits for ever.
const FULL: &str = "1210\n2210\n1407\n2468\nc440\nc441\nf000\nd1fe\n";

/// A source of an image of two words.
const LOOP: &str = "loop:\nwait\njz r0,loop\n";

/// A calibration with two equal questions.
const CALIBRATION: &str = "version = 1
permit = { pedal = [0, 500, 1000], speed = [800, 6000], table = [[200, 0], [1000, 900], [2000, 1800]], \
threshold = 200 }
torque = { kt = 2500, up = 1, down = 1, limit = 5 }
pairs = { pedal = 50, plate = 50, load = 50, speed = 50, up = 2, down = 1, limit = 10 }
plant = { slew = 50, fill = 40, angle = [0, 200, 1000], charge = [40, 300, 1000] }
answers = { period = 10, first = 4, last = 7, send = 5, up = 3, down = 1, limit = 9 }
question = [
  { seed = 4660, pedal = [500, 500], plate = [200, 800], load = [300, 300], speed = [800, 800], raise = 0, \
check = 65535, used = 500, estimate = 1400, allowed = 1000, answer = 8842 },
  { seed = 4660, pedal = [500, 500], plate = [200, 800], load = [300, 300], speed = [800, 800], raise = 0, \
check = 65535, used = 500, estimate = 1400, allowed = 1000, answer = 8842 },
]
";

/// How a call ends with the words of a line, which are separated by blanks.
pub(crate) fn end<S: Store, K: Sink, N: Sink>(
    alloc: Global,
    line: &str,
    store: &mut S,
    out: &mut K,
    notes: &mut N,
    steps: &mut Ticks,
) -> Result<Outcome, Fail> {
    let mut words = Vec::new(alloc);
    for word in line.split_whitespace() {
        words.push(word.to_string(alloc)?)?;
    }
    Ok(egasim(alloc, &words, store, out, notes, steps))
}

/// The files that each store has.
const FILES: [(&str, &str); 10] = [
    ("in.csv", CHECK),
    ("c.toml", CAMPAIGN),
    ("late.toml", LATE),
    ("early.toml", EARLY),
    ("idle.csv", TRACE),
    ("probe.hex", PROBE),
    ("idle.hex", IDLE),
    ("full.hex", FULL),
    ("loop.asm", LOOP),
    ("cal.toml", CALIBRATION),
];

/// A store that has all of these files, and a trace of 60 and one of 1,000 ticks.
fn store(alloc: Global) -> Result<MemoryStore, Fail> {
    let mut store = MemoryStore::new(alloc);
    for (name, text) in FILES {
        store.add(name, text.as_bytes())?;
    }
    for (name, ticks) in [("short.csv", 60), ("long.csv", 1000)] {
        store.add(name, trace(alloc, ticks)?.as_bytes())?;
    }
    Ok(store)
}

/// So many ticks without pedal at 800 revolutions.
fn trace(alloc: Global, ticks: usize) -> Result<String, Fail> {
    let rows = "0,800,0\n".repeat(alloc, ticks)?;
    Ok(format!(in alloc; "pedal,speed,raise\n{rows}")?)
}

/// A store that counts its reads.
#[derive(Drop)]
struct Counting {
    store: MemoryStore,
    reads: usize,
}

impl Store for Counting {
    ghost shows = { λ s. ⟦<MemoryStore as Store>⟧.shows s.store };

    fn read(&mut self, name: &str, most: usize, into: &mut Vec<u8>) -> Result<(), ReadRefusal> {
        self.reads = self.reads.saturating_add(1);
        self.store.read(name, most, into)
    }
}

/// The numbers of the read, of the put to the output and of the put to the notes that fail, each from 0.
#[derive(Clone, Copy)]
pub(crate) struct Failing {
    pub(crate) read: Option<u32>,
    pub(crate) put: Option<u32>,
    pub(crate) note: Option<u32>,
}

/// Nothing fails.
pub(crate) const NOTHING: Failing = Failing {
    read: None,
    put: None,
    note: None,
};

/// What a call has shown.
#[derive(Drop)]
pub(crate) struct Shown {
    pub(crate) outcome: Outcome,
    pub(crate) reads: usize,
    pub(crate) out: MemorySink,
    pub(crate) steps: Ticks,
}

/// An output of which the put of this number fails.
fn sink(alloc: Global, fails: Option<u32>) -> Result<MemorySink, Fail> {
    let mut sink = MemorySink::new(alloc);
    if let Some(number) = fails {
        sink.fail_at(number)?;
    }
    Ok(sink)
}

/// Calls with the words of a line.
pub(crate) fn call(alloc: Global, line: &str, failing: Failing) -> Result<Shown, Fail> {
    let mut files = store(alloc)?;
    if let Some(number) = failing.read {
        files.fail_at(number)?;
    }
    let mut store = Counting {
        store: files,
        reads: 0,
    };
    let mut out = sink(alloc, failing.put)?;
    let mut notes = sink(alloc, failing.note)?;
    let mut steps = Ticks::new();
    let outcome = end(alloc, line, &mut store, &mut out, &mut notes, &mut steps)?;
    Ok(Shown {
        outcome,
        reads: store.reads,
        out,
        steps,
    })
}
