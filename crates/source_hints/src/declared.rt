//! What the tokens of a file declare.

use crate::tokens::{is_symbol, name_of, symbol_of, word_of};
use cir_token::{Reserved, Symbol, Token};
use std::alloc::{AllocError, Global};

// What a name that comes would be.
#[derive(Clone, Copy)]
enum Part {
    // Nothing that is declared.
    Other,
    // A template or function, or its parameter.
    Head,
    // A declared name, if it stands at this depth of brackets and nothing was named since the word
    // or the comma.
    List { depth: u32, wants: bool },
}

/// Goes over tokens, and says of each whether it declares a name.
pub struct Declaring {
    depth: u32,
    part: Part,
}

impl Drop for Declaring {
    fn drop(self) {
        let Declaring {
            depth: _depth,
            part: _part,
        } = self;
    }
}

impl Declaring {
    /// Before the first token.
    pub fn new() -> Declaring {
        Declaring {
            depth: 0,
            part: Part::Other,
        }
    }

    /// Whether this token declares a name.
    pub fn declares(&mut self, token: &Token) -> bool {
        if let Some(word) = word_of(token) {
            self.word(word);
        } else if let Some(symbol) = symbol_of(token) {
            self.symbol(symbol);
        } else if name_of(token).is_some() {
            return self.name();
        }
        false
    }

    fn word(&mut self, word: Reserved) {
        match word {
            Reserved::Template | Reserved::Function => self.part = Part::Head,
            Reserved::Signal | Reserved::Var | Reserved::Component => {
                self.part = Part::List {
                    depth: self.depth,
                    wants: true,
                };
            }
            _ => {}
        }
    }

    fn symbol(&mut self, symbol: Symbol) {
        match symbol {
            Symbol::OpenParenthesis | Symbol::OpenBracket => {
                self.depth = self.depth.saturating_add(1);
            }
            Symbol::CloseParenthesis | Symbol::CloseBracket => {
                self.depth = self.depth.saturating_sub(1);
                if let Part::Head = self.part {
                    self.part = Part::Other;
                }
            }
            Symbol::Semicolon | Symbol::OpenBrace | Symbol::CloseBrace => self.part = Part::Other,
            Symbol::Comma => {
                if let Part::List { depth, .. } = self.part
                    && depth == self.depth
                {
                    self.part = Part::List { depth, wants: true };
                }
            }
            _ => {}
        }
    }

    fn name(&mut self) -> bool {
        match self.part {
            Part::Head => true,
            Part::List { depth, wants } => {
                self.part = Part::List {
                    depth,
                    wants: false,
                };
                wants
            }
            Part::Other => false,
        }
    }
}

/// Whether some token declares this name.
pub fn is_declared(tokens: &[Token], name: &str) -> bool {
    let mut declaring = Declaring::new();
    for token in tokens {
        if declaring.declares(token) && name_of(token) == Some(name) {
            return true;
        }
    }
    false
}

/// A template or a function: its name, and the tokens behind it.
#[derive(Clone, Copy)]
pub struct Definition<'t> {
    pub name: &'t str,
    pub behind: &'t [Token],
}

/// The template or function of this name.
pub fn definition_of<'t>(tokens: &'t [Token], name: &str) -> Option<Definition<'t>> {
    let mut is_head = false;
    for (index, token) in tokens.iter().enumerate() {
        match word_of(token) {
            Some(Reserved::Template | Reserved::Function) => is_head = true,
            Some(Reserved::Parallel) => {}
            _ => {
                if is_head && name_of(token) == Some(name) {
                    let behind = tokens.get(index..)?.get(1..)?;
                    return Some(Definition {
                        name: name_of(token)?,
                        behind,
                    });
                }
                is_head = false;
            }
        }
    }
    None
}

/// How many things stand in the parentheses at the front, with commas between them; none where
/// there are no parentheses that close.
pub fn count_listed(tokens: &[Token]) -> Option<usize> {
    if !is_symbol(tokens.first(), Symbol::OpenParenthesis) {
        return None;
    }
    let mut depth: u32 = 0;
    let mut commas: usize = 0;
    let mut is_empty = true;
    for token in tokens {
        match symbol_of(token) {
            Some(Symbol::OpenParenthesis | Symbol::OpenBracket) => {
                is_empty = is_empty && depth == 0;
                depth = depth.saturating_add(1);
            }
            Some(Symbol::CloseParenthesis | Symbol::CloseBracket) => {
                depth = depth.saturating_sub(1);
                if depth == 0 {
                    return Some(if is_empty {
                        0
                    } else {
                        commas.saturating_add(1)
                    });
                }
            }
            Some(Symbol::Comma) if depth == 1 => commas = commas.saturating_add(1),
            _ => is_empty = false,
        }
    }
    None
}

/// The names of the inputs that a template declares, by the tokens behind its name.
pub fn inputs_of<'t>(alloc: Global, behind: &'t [Token]) -> Result<Vec<&'t str>, AllocError> {
    let mut names = Vec::new(alloc);
    let mut declaring = Declaring::new();
    let mut is_input = false;
    for token in behind {
        match word_of(token) {
            Some(Reserved::Template | Reserved::Function) => break,
            Some(Reserved::Input) => is_input = true,
            Some(_) => is_input = false,
            None => {}
        }
        if declaring.declares(token)
            && is_input
            && let Some(name) = name_of(token)
        {
            names.push(name)?;
        }
    }
    Ok(names)
}

/// The name of the template of the main component.
pub fn main_template(tokens: &[Token]) -> Option<&str> {
    let mut is_main = false;
    let mut is_value = false;
    for token in tokens {
        if word_of(token) == Some(Reserved::Main) {
            is_main = true;
        } else if is_symbol(Some(token), Symbol::Equal) {
            is_value = is_main;
        } else if is_value && let Some(name) = name_of(token) {
            return Some(name);
        }
    }
    None
}
