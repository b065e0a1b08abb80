// Tokens, one in a line.
use format::token::Token;
use format::tokens::Tokens;
use std::io;
use std::io::Print;

fn show_token(rt: &impl Print, t: Token) -> io::Result<()> {
    match t {
        Token::End => println!(rt; "end"),
        Token::Word(n) => println!(rt; "word {n}"),
        Token::Var(x) => println!(rt; "var {x}"),
        Token::Load(n) => println!(rt; "load {n}"),
        Token::Choice => println!(rt; "choice"),
        Token::Operator(o) => println!(rt; "{o}"),
        Token::Set(x) => println!(rt; "set {x}"),
        Token::Store(n) => println!(rt; "store {n}"),
        Token::If => println!(rt; "if"),
        Token::While => println!(rt; "while"),
        Token::Call(g) => println!(rt; "call {g}"),
        Token::From(x, d) => println!(rt; "from {x} {d}"),
        Token::To(d) => println!(rt; "to {d}"),
        Token::Function(a, v) => println!(rt; "function {a} {v}"),
    }
}

// The tokens of a text, as far as there are some.
pub fn show_tokens(rt: &impl Print, text: &[u8]) -> io::Result<()> {
    let mut tokens = Tokens::new(text);
    for token in &mut tokens {
        show_token(rt, token)?;
    }
    if tokens.rest().is_empty() {
        return Ok(());
    }
    let at = text.len().saturating_sub(tokens.rest().len());
    println!(rt; "no token at {at}")
}
