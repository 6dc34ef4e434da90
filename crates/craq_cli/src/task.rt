//! The tasks of `craq` as values; made by `commands`, done by the program `craq`.
use craq_commands::ReadMode;
use craq_names::{ChainId, ClientId};
use craq_script::{ScriptObject, UpdateLine};

/// A request of `craq` to a server.
#[derive(Debug, Drop)]
pub enum Request {
    /// The chains and their members.
    Status,
    /// An update. Its key and values may be longer than they may be: such an update is refused
    /// before it is sent.
    Update(UpdateLine),
    /// A read.
    Read {
        mode: ReadMode,
        object: ScriptObject,
    },
}

/// The load of `craq bench`.
#[derive(Clone, Copy, Debug, PartialEq, Eq)]
pub struct BenchLoad {
    /// The number of connections, 1 to 1,000, each with one request under way.
    pub connections: u64,
    /// For how many seconds, 1 to 86,400.
    pub seconds: u64,
    /// The number of strong reads in 100 requests, 0 to 100; the others are puts.
    pub reads: u64,
    /// The number of objects, 1 to 1,000,000; each request picks one.
    pub keys: u64,
    /// The number of bytes of each put's value, 0 to 4,096.
    pub size: u64,
}

impl BenchLoad {
    ghost use Rattle.std.specs.Prelude.{◌≡◌};
    ghost use Rattle.craq_cli.specs.Loads.{usual_load};

    /// Returns the load of `craq bench` without words and options: 50 connections, 10 seconds, half
    /// of the requests reads, 1,000 objects, 16 bytes.
    pub const fn usual() -> Self
        ensures { result ≡ usual_load }
    {
        BenchLoad {
            connections: 50,
            seconds: 10,
            reads: 50,
            keys: 1_000,
            size: 16,
        }
    }
}

/// The form of values on a command line.
#[derive(Clone, Copy, Debug, PartialEq, Eq)]
pub enum ValueForm {
    /// The bytes of the word.
    Bytes,
    /// Pairs of hexadecimal digits in lower case.
    Hexadecimal,
    /// A number of 64 bits in decimal digits, which stands for its 8 bytes.
    Decimal,
}

/// The parts of a request that the words of a verb do not name.
#[derive(Clone, Copy, Debug, PartialEq, Eq)]
pub struct VerbContext {
    /// The chain of all objects.
    pub chain: ChainId,
    /// The client whose update it is.
    pub client: ClientId,
    /// The request number of the update.
    pub number: u64,
    /// The mode of a read.
    pub mode: ReadMode,
    /// The form of values.
    pub form: ValueForm,
}

/// A verb for people.
#[derive(Debug, Drop)]
pub enum Verb {
    /// One request. The node of an update is 0 until the caller chooses one.
    Ask(Request),
    /// The chains and their members.
    Members,
    /// The times of an update through the whole chain and of a read at each member.
    Health,
}

/// The options of a verb for people, apart from the node, the address and the pass.
#[derive(Clone, Copy, Debug)]
pub struct VerbOptions<'a> {
    /// The chain, by its number or its name; chain 0 if there is none.
    pub chain: Option<&'a str>,
    /// The mode of a read.
    pub mode: ReadMode,
    /// The client's id.
    pub client: Option<u64>,
    /// The request number of an update that is asked again.
    pub number: Option<u64>,
    /// The form of values that are given and printed.
    pub form: ValueForm,
    /// True if the reply is printed as a JSON object.
    pub is_json: bool,
    /// True if the pass of the reply is printed too.
    pub prints_pass: bool,
}

/// The words of a verb for people, with its options.
#[derive(Debug, Drop)]
pub struct VerbLine<'a> {
    /// The verb and its words.
    pub words: Vec<&'a str>,
    /// Its options.
    pub options: VerbOptions<'a>,
}

/// The task of `craq`.
#[derive(Debug, Drop)]
pub enum Task<'a> {
    /// A verb for people.
    Verb(VerbLine<'a>),
    /// One request, and its answer printed.
    Ask(Request),
    /// The members of each chain, printed as they change; for this many seconds where there is a
    /// number.
    Watch(Option<u64>),
    /// A load on the server, and its results as a table.
    Bench(BenchLoad),
    /// A prompt.
    Shell,
}
