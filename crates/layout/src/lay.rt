// The rules over one lexeme, or over the end, with the parser asked on the way.
ghost use Rattle.std.specs.Prelude.{◌≡◌, ◌≤◌, length};
ghost use Rattle.parser.specs.Meaning.{meaning};
ghost use Rattle.layout.specs.Drafts.{Laying};
ghost use Rattle.layout.specs.Limits.{undefined_at};

use crate::draft::{Draft, insert_all, take_token};
use crate::marked::Marked;
use crate::rule::{Coming, Onward, rule_at};
use parser::Stepping;
use sheet::Reason;

impl Coming {
    // Why the rules do not go on where they are undefined.
    fn undefined(&self) -> Reason
        ensures { result ≡ undefined_at self.now }
    {
        match self {
            Coming::Lexeme(_) => Reason::StrayClose,
            Coming::End(_) => Reason::BlockOpen,
        }
    }
}

// The rules over what comes, up to its end or to what stops them. The parser takes the tokens on the way, also where
// they are stopped later: the caller marks it before. How it goes on is a value of its own, since the contract names it.
pub fn lay<P: Stepping>(parser: &mut P, contexts: &[u32], marked: &Marked) -> Result<Draft, Reason>
    requires { length contexts.now ≤ 64 }
    ensures { Laying contexts.now marked.now.mark marked.now.coming (meaning P.Stepping parser.old) (meaning P.Stepping parser.new) result }
{
    let coming = &marked.coming;
    let mut mark = marked.mark;
    let mut draft = Draft::new(contexts.len());
    loop {
        let blocks = draft.blocks();
        let rule = rule_at(parser, mark, coming, draft.innermost(contexts));
        let inserted = insert_all(parser, rule.inserting(), blocks, draft)?;
        match rule.onward() {
            Onward::Mark(next) => mark = next,
            Onward::Lexeme => {
                let Coming::Lexeme(lexeme) = coming else {
                    unreachable!()
                };
                take_token(parser, lexeme.kind, blocks)?;
                return Ok(inserted.after(rule, lexeme.column));
            }
            Onward::End => return Ok(inserted),
            Onward::Undefined => return Err(coming.undefined()),
        }
        draft = inserted.after(rule, coming.column());
    }
}
