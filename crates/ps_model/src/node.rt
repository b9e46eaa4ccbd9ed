// The nodes of an expression, as an application lists them.

ghost use Rattle.std.specs.Prelude.{◌≡◌, ◌++◌, ◌≤◌, OnOk, length};
ghost use Rattle.ps_model.specs.Exprs.{formula};
ghost use Rattle.ps_model.specs.Nodes.{nodes};
ghost use Rattle.ps_model.specs.NodeList.{shape_of, listed_at};

use crate::expr::Expr;
use ps_base::Memory;
use ps_base::limits::MOST_NODES;

/// What a node of an expression is.
#[derive(Clone, Copy)]
pub enum Shape {
    /// A signal, by its number.
    Signal(u16),
    /// An AND of two or more operands.
    And,
    /// An OR of two or more operands.
    Or,
}

/// What an application lists of a node.
#[derive(Clone, Copy)]
pub struct Node {
    /// What it is.
    pub shape: Shape,
    /// How many nodes it has with all below it, itself among them.
    pub size: usize,
    /// How many AND and OR stand around it within its value; the root of a value has depth 0.
    pub depth: usize,
}

/// How many nodes an expression has.
pub fn node_count(e: &Expr) -> u32
    requires { length (nodes (formula e.now)) ≤ MOST_NODES }
    ensures { result ≡ length (nodes (formula e.now)) }
{
    match e {
        Expr::Signal(_) => 1,
        Expr::And(es) | Expr::Or(es) => {
            let mut count = 1;
            for x in &es.items {
                count += node_count(x);
            }
            count
        }
    }
}

// What the root of an expression is.
fn root_shape(e: &Expr) -> Shape
    ensures { result ≡ shape_of (formula e.now) }
{
    match e {
        Expr::Signal(s) => Shape::Signal(*s),
        Expr::And(_) => Shape::And,
        Expr::Or(_) => Shape::Or,
    }
}

/// Lists the nodes of an expression at the end, each before its operands. The AND and OR that stand around the
/// expression, `depth` in number, are already listed. `Err` comes only if memory runs out.
pub fn write_nodes(e: &Expr, depth: usize, list: &mut Vec<Node>) -> Result<(), Memory>
    requires { depth ≤ length list.old.items }
    ensures { OnOk result (list.new.items ≡ list.old.items ++ listed_at depth (formula e.now)) }
{
    let at = list.len();
    let shape = root_shape(e);
    list.push(Node {
        shape,
        size: 1,
        depth,
    })?;
    if let Expr::And(es) | Expr::Or(es) = e {
        for x in &es.items {
            write_nodes(x, depth + 1, list)?;
        }
        list[at] = Node {
            shape,
            size: list.len() - at,
            depth,
        };
    }
    Ok(())
}
