use cue_syntax::{Declaration, Expr, Rest, Term};

/// How many expressions a list of declarations has, those inside others too.
#[cycle(size)]
pub fn of_declarations(declarations: &[Declaration]) -> u64 {
    let mut sum = 0u64;
    for declaration in declarations {
        sum = sum.saturating_add(of_declaration(declaration));
    }
    sum
}

#[cycle(size)]
fn of_declaration(declaration: &Declaration) -> u64 {
    match declaration {
        Declaration::Ellipsis => 0,
        Declaration::Field { value, .. } | Declaration::Definition { value, .. } => {
            of_expression(value)
        }
    }
}

#[cycle(size)]
fn of_expression(expression: &Expr) -> u64 {
    match expression {
        Expr::Parenthesis { inner, .. } => of_expression(inner).saturating_add(1),
        Expr::Struct { declarations, .. } | Expr::Close { declarations, .. } => {
            of_declarations(declarations).saturating_add(1)
        }
        Expr::List { elements, rest, .. } => of_expressions(elements)
            .saturating_add(of_rest(rest))
            .saturating_add(1),
        Expr::Conjunction(parts) => of_expressions(parts).saturating_add(1),
        Expr::Disjunction(terms) => of_terms(terms).saturating_add(1),
        _ => 1,
    }
}

#[cycle(size)]
fn of_expressions(expressions: &[Expr]) -> u64 {
    let mut sum = 0u64;
    for expression in expressions {
        sum = sum.saturating_add(of_expression(expression));
    }
    sum
}

#[cycle(size)]
fn of_rest(rest: &Rest) -> u64 {
    match rest {
        Rest::Each(each) => of_expression(each),
        Rest::Ends | Rest::GoesOn => 0,
    }
}

#[cycle(size)]
fn of_terms(terms: &[Term]) -> u64 {
    let mut sum = 0u64;
    for term in terms {
        sum = sum.saturating_add(of_expression(&term.value));
    }
    sum
}
