//! The tree of a source's tokens, form by form.
ghost use Rattle.std.specs.Prelude.{◌≡◌, ◌++◌, ◌<◌, ◌≤◌, List as Items, [], length, IfOk, IfSome, OnOk};
ghost use Rattle.fac_source.specs.declared.token.Token.{Token as Read};
ghost use Rattle.fac_source.specs.declared.tree.Form.{Form as Whole};
ghost use Rattle.fac_parse.specs.Handed.{HandsOut, HasHandedOut, IsTaking, calls_left};
ghost use Rattle.fac_parse.specs.Trees.{AreForms};
ghost use Rattle.fac_parse.specs.inner.Reader.{state_of};
ghost use Rattle.fac_parse.specs.inner.Handing.{Ends, FallsIf, GoesOn, TakesMore, TakesNext};

use crate::reader::{ParseFault, Reader, Why, syntax};
use fac_base::{List, Queue};
use fac_source::{Form, Token};
use std::alloc::Global;
use std::mem;

// So many forms are handed out at once, or more where more are whole.
const MANY_FORMS: u32 = 64;

/// The tree of a file's tokens, read form by form. The tokens that were taken are given back to memory, and forms that were handed out aren't
/// kept, so neither all tokens nor a whole tree stand in memory.
///
/// A tree is any number of forms. A form is one of these rows, or a run of items. `n`, `v`, `p` and `s` are names, a `c` is a name,
/// `t` or `f`, and a star means any number, none included.
///
/// - `IN: v`, `USE: v`, `USING: v* ;`, `FROM: v => n* ;`, `QUALIFIED-WITH: v p`
/// - `DEFER: n`, `SYMBOL: n`, `MAIN: n`, `<PRIVATE`, `PRIVATE>`
/// - `CONSTANT: n` with a literal behind it: an integer, a string, `t`, `f`, `\ n`, a quotation or an array
/// - `: n effect item* ;` and `:: n effect item* ;` with `inline` and `recursive` behind it, each at most once, in any order
/// - `TUPLE: n s* ;`, `TUPLE: n < n s* ;` with at most 64 slots `s`, of which none is `<`
/// - `UNION: n c* ;`, `SINGLETON: n`, `C: n n`
/// - `GENERIC: n effect`, `M: c n item* ;` with at most one `inline` behind it
///
/// An item is a name, an integer, a string, `t`, `f`, `call-next-method`, a quotation `[ item* ]`, a quotation `[| n* | item* ]` whose inputs are
/// locals, a fry `'[ item* ]`, `:> n`, which binds a local, a hole `_` or `@`, `\ n`, which is a word as a value, `call( entry* -- entry* )` or
/// `execute( entry* -- entry* )`, or an array `{ element* }`, whose elements are integers, strings, `t`, `f`, `\ n`, quotations `[ item* ]`, arrays and
/// names. All brackets nest at most 256 deep, counted together. An array has at most 1,000,000 elements: those that stand directly in it.
///
/// `:> n` stands only in `::`, in a quotation with locals, and in what stands in one of these. The local is in scope to the end of what it stands
/// directly in, and so are the inputs of `::` and of a quotation with locals. At most 64 are in scope, hidden ones and those around an array counted:
/// where 64 are, `:>` stands nowhere, nor does a name before the `|`. The name of a local doesn't end in `!`; that of an input of `::` has no colon.
///
/// A hole stands only in a fry, in a quotation in one, and so on, and not in an array in it. A fry has at most 64 holes, those of a fry in it not counted.
///
/// An effect is `( entry* -- entry* )`. An entry is a name that ends in no colon, or a name that ends in one and what describes it: a name that ends in
/// no colon, or an effect. A name that begins with two dots is only the first entry of its side. An effect has at most 64 names, with those of the
/// effects in it. Behind `call(` and `execute(` no entry is a name that begins with two dots, nor is one of the effects in it.
#[derive(Drop)]
pub struct Parser {
    pub reader: Reader,
    /// The tokens that aren't taken.
    pub rest: Queue<Token>,
    /// The number of tokens that are taken.
    pub taken: usize,
    /// Whether all forms were handed out.
    pub is_whole: bool,
}

impl Parser {
    /// Before the first token.
    pub fn new(alloc: Global, tokens: List<Token>) -> Parser
        ensures { HasHandedOut tokens [] result }
    {
        // The count shows that the tokens can be counted.
        let _count = tokens.len();
        Parser {
            reader: Reader::new(alloc),
            rest: Queue::new(tokens.into_vec()),
            taken: 0,
            is_whole: false,
        }
    }

    // Takes the next token. False where none is left.
    fn take_next(&mut self, alloc: Global) -> Result<bool, ParseFault>
        requires { (tokens : Items Read) × (before : Items Whole) × IsTaking tokens before self.now }
        ensures takes { (tokens : Items Read) (before : Items Whole) → IsTaking tokens before self.old → TakesNext tokens before self.new result }
        ensures falls { FallsIf (length self.old.rest) (length self.new.rest) result }
        ensures going { self.new.is_whole ≡ self.old.is_whole }
    {
        match self.rest.take() {
            Some(token) => {
                if !self.reader.take(alloc, token)? {
                    return Err(syntax(self.taken, Why::Other));
                }
                self.taken += 1;
                Ok(true)
            }
            None => Ok(false),
        }
    }

    // Takes tokens until there are forms to be handed out, or no token is left.
    fn take_more(&mut self, alloc: Global) -> Result<(), ParseFault>
        requires { (tokens : Items Read) × (before : Items Whole) × IsTaking tokens before self.now }
        ensures takes { (tokens : Items Read) (before : Items Whole) → IsTaking tokens before self.old → TakesMore tokens before self.new result }
        ensures falls { OnOk result (length self.new.rest ≤ length self.old.rest) }
        ensures going { self.new.is_whole ≡ self.old.is_whole }
    {
        'taking: while self.reader.forms.len() < MANY_FORMS {
            if !self.take_next(alloc)? {
                return Ok(());
            }
        }
        Ok(())
    }

    // The forms that are whole, which aren't kept.
    fn hand_out(&mut self, alloc: Global) -> List<Form>
        ensures hands { (tokens : Items Read) (before : Items Whole) → IsTaking tokens before self.old → AreForms result × IsTaking tokens (before ++ result) self.new }
        ensures rest { self.new.rest ≡ self.old.rest }
        ensures going { self.new.is_whole ≡ self.old.is_whole }
    {
        mem::replace(&mut self.reader.forms, List::new(alloc))
    }

    // Ends what may end where no token is left, and hands out the last forms.
    fn end(&mut self, alloc: Global) -> Result<List<Form>, ParseFault>
        requires { self.now.rest ≡ [] }
        ensures { (tokens : Items Read) (before : Items Whole) → IsTaking tokens before self.old → Ends tokens before self.new result }
    {
        if self.reader.finish(alloc)? {
            self.is_whole = true;
            Ok(mem::replace(&mut self.reader.forms, List::new(alloc)))
        } else {
            Err(syntax(self.taken, Why::End))
        }
    }

    // Takes tokens, of which one at least is left, and hands out the forms that are whole then.
    fn go_on(&mut self, alloc: Global) -> Result<List<Form>, ParseFault>
        requires { (tokens : Items Read) × (before : Items Whole) × IsTaking tokens before self.now }
        ensures hands { (tokens : Items Read) (before : Items Whole) → IsTaking tokens before self.old → GoesOn tokens before self.new result }
        ensures rest { OnOk result (length self.new.rest ≤ length self.old.rest) }
        ensures going { OnOk result (self.new.is_whole ≡ self.old.is_whole) }
    {
        self.take_more(alloc)?;
        Ok(self.hand_out(alloc))
    }

    /// The next forms, behind those that were handed out before: some, or none where the last tokens make none by themselves. None behind the last form.
    /// A file whose tokens are in no tree is refused at the exact place, though forms before that place were handed out.
    pub fn next(&mut self, alloc: Global) -> Result<Option<List<Form>>, ParseFault>
        requires { (tokens : Items Read) × (before : Items Whole) × HasHandedOut tokens before self.now }
        ensures hands { (tokens : Items Read) (before : Items Whole) → HasHandedOut tokens before self.old → HandsOut tokens before self.new result }
        ensures falls { IfOk result (λ given. IfSome given (λ forms. calls_left self.new < calls_left self.old)) }
    {
        if self.is_whole {
            return Ok(None);
        }
        if self.take_next(alloc)? {
            Ok(Some(self.go_on(alloc)?))
        } else {
            Ok(Some(self.end(alloc)?))
        }
    }
}
