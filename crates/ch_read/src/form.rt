//! The kinds of file, the headings in their problem lines, and their items.
ghost use Rattle.std.specs.Prelude.{◌≡◌, [], ◌∷◌, option_map};
ghost use Rattle.ch_read.specs.Forms.{item_word, problem_size, item_size, node_count};

/// A kind of file. All kinds except graphs are read for a graph, and hold its number of nodes here.
#[derive(Clone, Copy, Debug, PartialEq, Eq)]
pub enum Form {
    /// A graph: `p sp N M`, and M lines `a U V W`.
    Graph,
    /// Queries: `p aux sp p2p K`, and K lines `q S T`.
    Queries(u32),
    /// A list of nodes: `p aux sp ss K`, and K lines `s V`.
    Nodes(u32),
    /// A saved hierarchy: `p ch N L`, and N lines `o V` and L lines `l U V W A M` in any mixture.
    Saved(u32),
}

/// The first or the second kind of item of a file. Only saved hierarchies have the second.
#[derive(Clone, Copy, Debug, PartialEq, Eq)]
pub enum Part {
    First,
    Second,
}

/// The number of items of each part.
#[derive(Clone, Copy, Debug, PartialEq, Eq)]
pub struct Counts {
    pub first: u64,
    pub second: u64,
}

/// The heading that a problem line declares: the number of nodes, and the number of items of each part. Query
/// files and lists have the number of nodes of their graph.
#[derive(Clone, Copy, Debug, PartialEq, Eq)]
pub struct Heading {
    pub nodes: u32,
    pub items: Counts,
}

/// The numbers of an item line, with nodes numbered from 0. A number that the item does not have is 0 or
/// `None`.
#[derive(Clone, Copy, Debug, PartialEq, Eq)]
pub struct Item {
    pub first: u32,
    pub second: u32,
    pub weight: u64,
    pub arcs: u64,
    pub middle: Option<u32>,
}

impl Form {
    /// Returns the first letter of the item lines of a part, or `None` if the form does not have the part.
    pub(crate) fn item_letter(self, part: Part) -> Option<u8>
        ensures { item_word self part ≡ option_map (λ letter. letter ∷ []) result }
    {
        match (self, part) {
            (Form::Graph, Part::First) => Some(b'a'),
            (Form::Queries(_), Part::First) => Some(b'q'),
            (Form::Nodes(_), Part::First) => Some(b's'),
            (Form::Saved(_), Part::First) => Some(b'o'),
            (Form::Saved(_), Part::Second) => Some(b'l'),
            (Form::Graph, Part::Second)
            | (Form::Queries(_), Part::Second)
            | (Form::Nodes(_), Part::Second) => None,
        }
    }

    /// Returns the number of numbers in a problem line.
    pub(crate) fn problem_size(self) -> usize
        ensures { result ≡ problem_size self }
    {
        match self {
            Form::Graph | Form::Saved(_) => 2,
            Form::Queries(_) | Form::Nodes(_) => 1,
        }
    }

    /// Returns the number of numbers in an item line of a part.
    pub(crate) fn item_size(self, part: Part) -> usize
        ensures { result ≡ item_size self part }
    {
        match (self, part) {
            (Form::Graph, _) => 3,
            (Form::Queries(_), _) => 2,
            (Form::Nodes(_), _) | (Form::Saved(_), Part::First) => 1,
            (Form::Saved(_), Part::Second) => 5,
        }
    }

    /// Returns the number of nodes that each item of a part must have. They come first among its numbers.
    pub(crate) fn node_count(self, part: Part) -> usize
        ensures { result ≡ node_count self part }
    {
        match (self, part) {
            (Form::Graph, _) | (Form::Queries(_), _) | (Form::Saved(_), Part::Second) => 2,
            (Form::Nodes(_), _) | (Form::Saved(_), Part::First) => 1,
        }
    }
}

impl Counts {
    ghost use Rattle.ch_read.specs.Forms.{count_of};

    /// Makes the counts of both parts.
    pub(crate) fn new(first: usize, second: usize) -> Counts
        ensures { result ≡ record { first = first; second = second } }
    {
        Counts {
            first: first as u64,
            second: second as u64,
        }
    }

    /// Returns the count of one part.
    pub(crate) fn of(self, part: Part) -> u64
        ensures { result ≡ count_of self part }
    {
        match part {
            Part::First => self.first,
            Part::Second => self.second,
        }
    }
}

impl Heading {
    /// Makes a heading from the number of nodes and the number of items of each part.
    pub(crate) fn new(nodes: u32, first: u64, second: u64) -> Heading
        ensures { result ≡ record { nodes = nodes; items = record { first = first; second = second } } }
    {
        Heading {
            nodes,
            items: Counts { first, second },
        }
    }
}
