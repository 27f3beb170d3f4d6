// Pages and fragments, read by the chain of open elements.

ghost use Rattle.std.specs.Prelude.{◌≡◌, ◌≤◌, ◌+◌, ◌++◌, ◌∷◌, [], ◌<◌, ◌-◌, ℕ, List, Some, cond, length, map, slice_index, MatchOption, IfOk, OnOk, IsOkUnless, IsErrAnd, option_map};
ghost use Rattle.std.specs.Str.{str_to_ascii_lowercase};
ghost use Rattle.page_tree.specs.Fragments.{IsFragment, limit_passed, with_fragment};
ghost use Rattle.dom_arena.specs.Contents.{new_content, new_nodes, single};
ghost use Rattle.dom_arena.specs.Refusals.{error_of as dom_error};
ghost use Rattle.page_tree.specs.Refusals.{graft_refused};
ghost use Rattle.page_tree.specs.Edits.{appended, children_of};
ghost use Rattle.page_tree.specs.Trees.{IsOrdinary};
ghost use Rattle.html_meaning.specs.Page.{role_of, opened, content_of, fragment, page};
ghost use Rattle.html_meaning.specs.References.{resolved};
ghost use Rattle.page_tree.specs.Forest.{text, empty, rooted, depth_in};
ghost use Rattle.html_tokens.specs.Seen.{token_of};
ghost use Rattle.html_tokens.specs.declared.tokens.Token.TheVariants.{Start};
ghost use Rattle.html_tree.specs.Chain.{element_names, element_numbers, Leaves};
ghost use Rattle.html_tree.specs.Limits.{page_error, error_of, next_limit, FailsWith};
ghost use Rattle.html_tree.specs.declared.reader.PageError.TheVariants.{NoMemory};

use crate::attributes::attrs_of;
use crate::chain::OpenNames;
use crate::references::resolve;
use crate::tables::has_content;
use dom_arena::{Dom, DomError, Fragment, NewNode};
use html_tokens::{Tag, Token, Tokens};
use listed::Text;
use page_tree::{DEPTH_LIMIT, NODE_LIMIT};
use std::alloc::{AllocError, Global};
use thiserror::Error;

/// Why a page is not read.
#[derive(Debug, Clone, Copy, PartialEq, Eq, Error)]
pub enum PageError {
    /// A node would stand deeper than `DEPTH_LIMIT`.
    #[error("page too deep")]
    TooDeep,
    /// A node would be one more than `NODE_LIMIT`.
    #[error("too many nodes")]
    TooManyNodes,
    #[error("out of memory")]
    NoMemory,
}

impl From<AllocError> for PageError {
    ghost from_gives = { λ _ e. e ≡ NoMemory };

    fn from(_error: AllocError) -> PageError {
        PageError::NoMemory
    }
}

/// How many of the open elements a token leaves.
fn left_by<'a>(chain: &OpenNames<'a>, token: Token<'a>) -> usize
    ensures within { result ≤ length chain.now }
    ensures left { Leaves (role_of (token_of token.entry).piece) chain.now result }
{
    match token {
        Token::Start(tag) => chain.left_by_start(tag.name),
        Token::End { name, span: _ } => chain.left_by_end(name),
        Token::Chars {
            text: _,
            raw: _,
            span: _,
        } => chain.len(),
        Token::Comment { text: _, span: _ } => chain.len(),
        Token::Doctype { span: _ } => chain.len(),
        Token::Cut { span: _ } => chain.len(),
    }
}

/// The name of the element that a token opens, as the source spells it.
fn opened<'a>(token: Token<'a>) -> Option<&'a str>
    ensures { MatchOption result ((n : ℕ) → opened n (role_of (token_of token.entry).piece) ≡ [])
        (λ name. (n : ℕ) → opened n (role_of (token_of token.entry).piece) ≡ record { number = n; name = str_to_ascii_lowercase name.now } ∷ []) }
{
    match token {
        Token::Start(tag) => if has_content(tag.name, tag.self_closing) {
            Some(tag.name)
        } else {
            None
        },
        _ => None,
    }
}

/// Puts the element that a token opens behind the open ones, if it opens one.
fn open_element<'a>(chain: &mut OpenNames<'a>, token: Token<'a>) -> Result<(), AllocError>
    ensures { OnOk result ((n : ℕ) → chain.new ≡ chain.old ++ element_names (opened n (role_of (token_of token.entry).piece))) }
{
    if let Some(name) = opened(token) {
        chain.push(name)?;
    }
    Ok(())
}

/// The element of a start tag.
fn element(alloc: Global, tag: Tag) -> Result<NewNode, AllocError>
    ensures { IfOk result (λ node. Some (new_content node) ≡ content_of (token_of (Start tag.entry)).piece) }
{
    let name = Text::lower(alloc, tag.name)?;
    let attrs = attrs_of(alloc, tag.attrs)?;
    Ok(NewNode::Element { name, attrs })
}

/// The text of a page, where references in it are resolved unless it is raw.
fn text(alloc: Global, chars: &str, raw: bool) -> Result<NewNode, AllocError>
    ensures { IfOk result (λ node. new_content node ≡ text (cond raw chars.now (resolved 0 chars.now))) }
{
    if raw {
        Ok(NewNode::Text(Text::of(alloc, chars)?))
    } else {
        Ok(NewNode::Text(resolve(alloc, chars)?))
    }
}

/// The node that a token makes.
fn node_of(alloc: Global, token: Token) -> Result<Option<NewNode>, AllocError>
    ensures { IfOk result (λ node. option_map new_content node ≡ content_of (token_of token.entry).piece) }
{
    match token {
        Token::Start(tag) => Ok(Some(element(alloc, tag)?)),
        Token::End { name: _, span: _ } => Ok(None),
        Token::Chars {
            text: chars,
            raw,
            span: _,
        } => Ok(Some(text(alloc, chars, raw)?)),
        Token::Comment {
            text: chars,
            span: _,
        } => Ok(Some(NewNode::Comment(Text::of(alloc, chars)?))),
        Token::Doctype { span: _ } => Ok(None),
        Token::Cut { span: _ } => Ok(None),
    }
}

/// The depth in a fragment of the node that stands in `within` of its elements and behind `before` of its nodes, or the limit
/// that this node passes.
fn checked_depth(
    parent_depth: u32,
    live: u32,
    within: usize,
    before: usize,
) -> Result<u32, PageError>
    ensures { MatchOption (next_limit parent_depth (live + before) within) (result ≡ Ok within) (λ limit. result ≡ Err (page_error limit)) }
{
    if within >= DEPTH_LIMIT as usize || parent_depth >= DEPTH_LIMIT - within as u32 {
        Err(PageError::TooDeep)
    } else if before >= NODE_LIMIT as usize || live >= NODE_LIMIT - before as u32 {
        Err(PageError::TooManyNodes)
    } else {
        Ok(within as u32)
    }
}

/// Adds a node that stands in `within` elements of a fragment, unless it passes a limit.
fn push_node(
    part: &mut Fragment,
    parent_depth: u32,
    live: u32,
    within: usize,
    node: NewNode,
) -> Result<(), PageError>
    ensures answer { MatchOption (next_limit parent_depth (live + length part.old) within)
        (IsOkUnless result PageError.NoMemory) (λ limit. result ≡ Err (page_error limit)) }
    ensures nodes { OnOk result (new_nodes part.new ≡ new_nodes part.old ++ (within, new_content node) ∷ []) }
{
    let depth = checked_depth(parent_depth, live, within, part.len())?;
    part.push((depth, node))?;
    Ok(())
}

/// The nodes of a source, for a place whose parent has this depth in a tree of `live` nodes. The source is gone through once,
/// and no further than the first node that passes a limit of trees, which is the answer then. There are no more nodes than
/// the source has bytes, and put into the empty tree they are the page that the source is.
pub fn read_fragment(
    alloc: Global,
    source: &str,
    parent_depth: u32,
    live: u32,
) -> Result<Fragment, PageError>
    ensures answer { MatchOption (limit_passed parent_depth live (fragment source.now))
        (IsOkUnless result PageError.NoMemory) (λ limit. FailsWith result (page_error limit)) }
    ensures nodes { IfOk result (λ part. new_nodes part ≡ fragment source.now) }
    ensures fragment { IfOk result (λ part. IsFragment (new_nodes part)) }
    ensures few { IfOk result (λ part. length part ≤ length source.now) }
    ensures page { IfOk result (λ part. with_fragment 0 0 (new_nodes part) (record { nodes = empty; next = 1 }) ≡ page source.now) }
{
    let mut tokens = Tokens::new(source);
    let mut chain = OpenNames::new(alloc);
    let mut part = Fragment::new(alloc);
    while let Some(token) = tokens.next() {
        let left = left_by(&chain, token);
        chain.truncate(left);
        if let Some(node) = node_of(alloc, token)? {
            push_node(&mut part, parent_depth, live, left, node)?;
            open_element(&mut chain, token)?;
        }
    }
    Ok(part)
}

/// The number of the innermost open element, or of the document.
fn innermost(numbers: &[u32]) -> u32
    ensures { result ≡ slice_index numbers.now (length numbers.now - 1) }
{
    match numbers {
        [] => 0,
        _ => numbers[numbers.len() - 1],
    }
}

/// Puts the number of the element that a token opens behind the others, if it opens one.
fn keep_number(numbers: &mut Vec<u32>, token: Token, number: u32) -> Result<(), AllocError>
    ensures { OnOk result (numbers.new.items ≡ numbers.old.items ++ element_numbers (opened number (role_of (token_of token.entry).piece))) }
{
    if let Some(_name) = opened(token) {
        numbers.push(number)?;
    }
    Ok(())
}

/// The error of a page by that of its arena. The places of nodes are there, so that a limit is passed or there is no memory.
fn error_of(error: DomError) -> PageError
    ensures { result ≡ error_of error }
{
    match error {
        DomError::TooDeep => PageError::TooDeep,
        DomError::TooManyNodes => PageError::TooManyNodes,
        _ => PageError::NoMemory,
    }
}

/// Puts a node behind the last child of `parent`, which stands at this depth.
fn put(dom: &mut Dom, parent: u32, depth: u32, node: NewNode) -> Result<u32, PageError>
    requires number { dom.old.next < 4294967295 }
    requires depth { depth_in parent 0 (rooted dom.old.nodes) ≡ Some depth }
    requires ordinary { IsOrdinary (new_content node) }
    ensures answer { MatchOption (graft_refused parent (children_of parent dom.old) ((0, new_content node) ∷ []) dom.old)
        (IsOkUnless result PageError.NoMemory) (λ refusal. result ≡ Err (error_of (dom_error refusal))) }
    ensures number { IfOk result (λ n. n ≡ dom.old.next) }
    ensures tree { OnOk result (dom.new ≡ appended parent (single dom.old.next node) dom.old) }
{
    match dom.append(parent, depth, node) {
        Ok(number) => Ok(number),
        Err(error) => Err(error_of(error)),
    }
}

/// The tree of a page. The source is gone through once, and no further than the first node that passes a limit of trees,
/// which is the answer then. The nodes are put into the tree as they come.
pub fn read_page(alloc: Global, source: &str) -> Result<Dom, PageError>
    ensures answer { MatchOption (limit_passed 0 0 (fragment source.now))
        (IsOkUnless result PageError.NoMemory) (λ limit. FailsWith result (page_error limit)) }
    ensures tree { IfOk result (λ dom. dom ≡ page source.now) }
{
    let mut tokens = Tokens::new(source);
    let mut chain = OpenNames::new(alloc);
    let mut numbers: Vec<u32> = Vec::new(alloc);
    let mut dom = Dom::new(alloc)?;
    while let Some(token) = tokens.next() {
        let left = left_by(&chain, token);
        chain.truncate(left);
        numbers.truncate(left);
        if let Some(node) = node_of(alloc, token)? {
            let parent = innermost(numbers.as_slice());
            let number = put(&mut dom, parent, left as u32, node)?;
            open_element(&mut chain, token)?;
            keep_number(&mut numbers, token, number)?;
        }
    }
    Ok(dom)
}
