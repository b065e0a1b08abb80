// Tokens: a tag with the numbers that follow it, each capped at the largest u64.
use words::operator::Operator;

#[derive(Clone, Copy, PartialEq, Eq, Debug)]
pub enum Token {
    // the end of a list
    End,
    Word(u64),
    Var(u64),
    // size
    Load(u64),
    Choice,
    Operator(Operator),
    // variable
    Set(u64),
    // size
    Store(u64),
    If,
    While,
    // function
    Call(u64),
    // variable, door
    From(u64, u64),
    // door
    To(u64),
    // arguments, variables
    Function(u64, u64),
}
