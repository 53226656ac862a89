// Queries, as trees of the grammar.
ghost use Rattle.std.specs.Prelude.{◌≡◌, MatchResult, OnErr, false};
ghost use Rattle.sql_query.specs.Trees.{is_property_look, look_of};

use jr_path::{List, Name, Path};
use jr_value::Value;

/// How many NOT, AND and OR stand inside one another in a condition at most, and how many LOWER and UPPER in an operand.
/// Of a chain `a OR b OR c` the first stands inside all others. A deeper query has no memory, so a call that goes down
/// a query, or lets one go, needs no more stack than for so many.
pub const DEEPEST: usize = 1_000;

/// A query of JCR-SQL2 (JSR 283, 6.7 Abstract Query Model). Selectors are named by their place in the query, from 0.
pub struct Query {
    /// The node type of each selector, in order; at least one.
    pub types: List<Name>,
    /// The join of each selector but the first, in order.
    pub joins: List<Join>,
    /// The columns, at least one; `*` stands here as one column of each selector's node.
    pub columns: List<Column>,
    /// What is asked of a row, where anything is.
    pub filter: Option<Condition>,
    /// By what rows are ordered, the first first.
    pub orders: List<Order>,
}

// By hand, so that its parts are let go in one call.
impl Drop for Query {
    fn drop(self) {
        let Query {
            types,
            joins,
            columns,
            filter,
            orders,
        } = self;
        drop(types);
        drop(joins);
        drop(columns);
        drop(filter);
        drop(orders);
    }
}

impl Query {
    /// The node types of the selectors, in order.
    pub fn selector_types(&self) -> &[Name]
        ensures { result.now ≡ self.now.types }
    {
        self.types.as_slice()
    }
}

/// How a selector is joined to those before it.
pub struct Join {
    pub kind: JoinKind,
    pub on: On,
}

// By hand, so that its parts are let go in one call.
impl Drop for Join {
    fn drop(self) {
        let Join { kind: _, on } = self;
        drop(on);
    }
}

#[derive(Clone, Copy, PartialEq, Eq)]
pub enum JoinKind {
    Inner,
    LeftOuter,
    RightOuter,
}

/// When two nodes are joined. Of two selectors the first is the same node as, the child of or a descendant of the second.
pub enum On {
    Equal(PropertyOf, PropertyOf),
    Same(u32, u32),
    Child(u32, u32),
    Descendant(u32, u32),
}

// By hand, so that its parts are let go in one call.
impl Drop for On {
    fn drop(self) {
        match self {
            On::Equal(property_of, other_property_of) => {
                drop(property_of);
                drop(other_property_of);
            }
            On::Same(_, _) => {}
            On::Child(_, _) => {}
            On::Descendant(_, _) => {}
        }
    }
}

/// A property of the node of a selector.
pub struct PropertyOf {
    pub selector: u32,
    pub name: Name,
}

// By hand, so that its parts are let go in one call.
impl Drop for PropertyOf {
    fn drop(self) {
        let PropertyOf { selector: _, name } = self;
        drop(name);
    }
}

/// A column of the result.
pub enum Column {
    /// The path of the node of a selector.
    Node(u32),
    Property(PropertyOf),
}

// By hand, so that its parts are let go in one call.
impl Drop for Column {
    fn drop(self) {
        match self {
            Column::Node(_) => {}
            Column::Property(property_of) => drop(property_of),
        }
    }
}

/// What is asked of a row.
pub enum Condition {
    Not(Box<Condition>),
    And(Box<Condition>, Box<Condition>),
    Or(Box<Condition>, Box<Condition>),
    /// The node has the property.
    Has(PropertyOf),
    Compare(Operand, Operator, Value),
    /// The node of a selector is the one at a path, a child of it, or a descendant of it.
    Same(u32, Path),
    Child(u32, Path),
    Descendant(u32, Path),
}

// By hand, so that its parts are let go in one call.
impl Drop for Condition {
    fn drop(self) {
        match self {
            Condition::Not(condition) => drop(condition),
            Condition::And(condition, other_condition) => {
                drop(condition);
                drop(other_condition);
            }
            Condition::Or(condition, other_condition) => {
                drop(condition);
                drop(other_condition);
            }
            Condition::Has(property_of) => drop(property_of),
            Condition::Compare(operand, _, value) => {
                drop(operand);
                drop(value);
            }
            Condition::Same(_, path) => drop(path),
            Condition::Child(_, path) => drop(path),
            Condition::Descendant(_, path) => drop(path),
        }
    }
}

#[derive(Clone, Copy, PartialEq, Eq)]
pub enum Operator {
    Equal,
    Unequal,
    Less,
    AtMost,
    Greater,
    AtLeast,
    Like,
}

/// What a comparison or an order looks at.
pub enum Operand {
    Property(PropertyOf),
    Length(PropertyOf),
    Name(u32),
    LocalName(u32),
    Lower(Box<Operand>),
    Upper(Box<Operand>),
}

// By hand, so that its parts are let go in one call.
impl Drop for Operand {
    fn drop(self) {
        match self {
            Operand::Property(property_of) => drop(property_of),
            Operand::Length(property_of) => drop(property_of),
            Operand::Name(_) => {}
            Operand::LocalName(_) => {}
            Operand::Lower(operand) => drop(operand),
            Operand::Upper(operand) => drop(operand),
        }
    }
}

impl Operand {
    /// Gives the property back that the operand is; where it is none, the operand comes back as it was.
    pub fn into_property(self) -> Result<PropertyOf, Operand>
        ensures is { MatchResult result (λ p. self ≡ Operand.Property p) (λ other. other ≡ self) }
        ensures err { OnErr result (is_property_look (look_of self) ≡ false) }
    {
        match self {
            Operand::Property(property) => Ok(property),
            other => Err(other),
        }
    }
}

/// An order of rows by an operand.
pub struct Order {
    pub operand: Operand,
    pub direction: Direction,
}

// By hand, so that its parts are let go in one call.
impl Drop for Order {
    fn drop(self) {
        let Order {
            operand,
            direction: _,
        } = self;
        drop(operand);
    }
}

#[derive(Clone, Copy, PartialEq, Eq)]
pub enum Direction {
    Ascending,
    Descending,
}
