// Writes what a draft says into a queue, once it is known that all of it fits.
ghost use Rattle.std.specs.Prelude.{◌≡◌, ◌-◌, ◌≤◌, ◌++◌, map, length, replicate};
ghost use Rattle.queue.specs.Waiting.{room, SamePlaces, waiting};
ghost use Rattle.layout.specs.Drafts.{drafted_tokens, tokens_of};
ghost use Rattle.layout.specs.Marks.{inserted};
ghost use Rattle.layout.specs.Rules.{insert_kind};

use crate::draft::Draft;
use crate::rule::{Coming, Insert};
use queue::Queue;
use sheet::Token;

impl Coming {
    // A token that is inserted before what comes: it has its place, and no bytes of the text.
    fn inserted(&self, token: Insert) -> Token
        ensures { result ≡ inserted self.now (insert_kind token) }
    {
        let place = match self {
            Coming::Lexeme(lexeme) => lexeme.place(),
            Coming::End(place) => *place,
        };
        Token {
            kind: token.kind().number(),
            line: place.line,
            column: place.column,
            offset: 0,
            length: 0,
        }
    }
}

// Puts a token so many times; the `for` names no index.
fn put_times(queue: &mut Queue<'_, Token>, token: Token, times: u32)
    requires { times ≤ room queue.old }
    ensures list { waiting queue.new ≡ waiting queue.old ++ replicate times token }
    ensures left { room queue.new ≡ room queue.old - times }
    ensures places { SamePlaces queue.old queue.new }
{
    for _ in 0..times {
        let _ = queue.put(token);
    }
}

impl Draft {
    // Writes the tokens that are inserted before what comes.
    fn write_inserted(self, coming: &Coming, queue: &mut Queue<'_, Token>)
        requires { length (tokens_of self) ≤ room queue.old }
        ensures list { waiting queue.new ≡ waiting queue.old ++ map (inserted coming.now) (tokens_of self) }
        ensures left { room queue.new ≡ room queue.old - length (tokens_of self) }
        ensures places { SamePlaces queue.old queue.new }
    {
        let close = coming.inserted(Insert::Close);
        put_times(queue, coming.inserted(Insert::Open), u32::from(self.brace));
        put_times(queue, close, self.closes);
        put_times(
            queue,
            coming.inserted(Insert::Separator),
            u32::from(self.separator),
        );
        put_times(queue, close, self.closes_after);
    }

    // Writes all tokens, those inserted before what comes and the lexeme itself, and answers how many.
    pub fn write(self, coming: &Coming, queue: &mut Queue<'_, Token>) -> usize
        requires { length (drafted_tokens coming.now self) ≤ room queue.old }
        ensures count { result ≡ length (drafted_tokens coming.now self) }
        ensures list { waiting queue.new ≡ waiting queue.old ++ drafted_tokens coming.now self }
        ensures places { SamePlaces queue.old queue.new }
    {
        self.write_inserted(coming, queue);
        if let Coming::Lexeme(lexeme) = coming {
            let _ = queue.put(Token::from(*lexeme));
        }
        self.count(coming)
    }
}
