//! What commands that run scripts ask for, and what they owe then.
ghost use Rattle.std.specs.Prelude.{◌≡◌};
ghost use Rattle.tcl_frames.specs.Levels.{level_of};
ghost use Rattle.tcl_meaning.specs.Effects as effects;
ghost use Rattle.tcl_steps.specs.Views.{scope_of};

use crate::completion::Completion;
use tcl_frames::{Level, Variable};
use tcl_meaning::Code;
use tcl_names::PlacedNames;
use tcl_values::{Row, Value};

/// The frame in which a script is run.
#[derive(Drop)]
pub enum Scope {
    /// The active one.
    Here,
    /// The one that is this number of callers up: uplevel(n).
    Up(usize),
    /// The one of this level, among the active one and its callers.
    At(usize),
    /// A new one that the active one calls, with these variables: proc(n).
    Within(Box<PlacedNames<Variable>>),
}

impl Scope {
    /// The one of a level.
    pub fn of_level(level: Level) -> Scope
        ensures { scope_of result ≡ effects.At (level_of level) }
    {
        match level {
            Level::Up(callers) => Scope::Up(callers),
            Level::At(number) => Scope::At(number),
        }
    }
}

/// What is run while a condition holds: while(n).
#[derive(Drop)]
pub struct WhileLoop {
    pub test: Value,
    pub body: Value,
}

/// The same, with what is run behind each turn: for(n).
#[derive(Drop)]
pub struct ForLoop {
    pub test: Value,
    pub next: Value,
    pub body: Value,
}

/// Names of loop variables, and the elements that are left for them: foreach(n).
#[derive(Drop)]
pub struct LoopList {
    pub names: Vec<Value>,
    pub elements: Row,
    /// The number of elements that have gone.
    pub gone: usize,
}

/// A loop over the elements of lists: foreach(n), lmap(n), dict(n).
#[derive(Drop)]
pub struct Each {
    pub lists: Vec<LoopList>,
    pub body: Value,
    /// The results so far, where they are gathered.
    pub results: Option<Vec<Value>>,
}

/// A loop that stands before its next turn.
#[derive(Drop)]
pub enum Loop {
    While(Box<WhileLoop>),
    For(Box<ForLoop>),
    ForEach(Box<Each>),
}

/// The conditions of an `if` with their bodies, and what it runs if none holds.
#[derive(Drop)]
pub struct Others {
    pub clauses: Vec<(Value, Value)>,
    /// The number of those that have been evaluated.
    pub gone: usize,
    pub otherwise: Option<Value>,
}

/// A condition of an `if` that is evaluated: if(n).
#[derive(Drop)]
pub struct IfTest {
    /// What is run if it holds.
    pub body: Value,
    pub others: Others,
}

/// What a handler of `try` waits for: try(n).
#[derive(Drop)]
pub enum Catches {
    /// An end with this code.
    On(Code),
    /// An error whose code is a list that begins with these elements.
    Trap(Vec<Value>),
}

/// A handler of `try`.
#[derive(Drop)]
pub struct Handler {
    pub catches: Catches,
    /// The variables of the result and of the options. Further names are passed over.
    pub names: Vec<Value>,
    /// `-` stands for the script and the variables of the next handler that has another one.
    pub script: Value,
}

/// What a `try` has behind its body.
#[derive(Drop)]
pub struct Handlers {
    pub clauses: Vec<Handler>,
    pub finally: Option<Value>,
}

/// What a command has still to do when what it asked for has ended. What is wide stands in a box, which a loop hands on from turn to
/// turn.
#[derive(Drop)]
pub enum Owes {
    /// Nothing: the completion is the command's.
    Nothing,
    /// A procedure's body has ended.
    Leaving,
    /// `catch`: the completion goes into no variable.
    Catching,
    /// `catch`: the result goes into this variable.
    CatchingResult(Value),
    /// `catch`: the result goes into the first of these variables, and the options into the second one.
    CatchingOptions(Box<(Value, Value)>),
    IfTest(Box<IfTest>),
    WhileTest(Box<WhileLoop>),
    WhileBody(Box<WhileLoop>),
    ForStart(Box<ForLoop>),
    ForTest(Box<ForLoop>),
    ForBody(Box<ForLoop>),
    ForNext(Box<ForLoop>),
    EachBody(Box<Each>),
    /// The body of a `try` has ended.
    Trying(Box<Handlers>),
    /// A handler's script has ended, and no `finally` comes next.
    Handled,
    /// A handler's script has ended, and this script of `finally` comes next.
    Handling(Value),
    /// The script of `finally` has ended, behind this completion.
    Finishing(Box<Completion>),
}

/// What a command asks for before it goes on: where a script is run is an `S`, what is owed then an `O`, a loop an `L`.
#[derive(Drop)]
pub enum Step<S, O, L> {
    /// It is done.
    Done(Completion),
    /// A script is to be run, one deeper.
    Run(S, Value, O),
    /// An expression is to be evaluated.
    Evaluate(Value, O),
    /// A turn of a loop is to be paid for and made.
    Pay(L),
}
