//! Which vertices a list names, as a table.
ghost use Rattle.std.specs.Prelude.{◌≡◌, ◌<◌, ◌==◌, ◌||◌, ℕ, false, get_or};
ghost use Rattle.layout_roles.specs.declared.vertex.Vertex.{Vertex};
ghost use Rattle.layout_flow.specs.Flows.{same_vertex};
ghost use Rattle.side_model.specs.Sides.{set_of};
ghost use Rattle.layout_judge.specs.Marks.{IsSmall, is_marked, Marks};

use layout_roles::Vertex;

/// A mark for each vertex that a network may have.
#[derive(Drop)]
pub struct Table {
    pub source: bool,
    pub sink: bool,
    pub up: [bool; 256],
    pub down: [bool; 256],
    /// By partition, then by zone.
    pub zones: [[bool; 256]; 256],
    pub nodes: [bool; 256],
}

// Marks one of 256.
fn mark_one(row: &mut [bool; 256], place: u8)
    ensures { (k : ℕ) → k < 256 →
        get_or row.new k false ≡ (get_or row.old k false || (k == place)) }
{
    row[usize::from(place)] = true;
}

impl Table {
    fn mark(&mut self, vertex: Vertex)
        ensures { (other : Vertex) → IsSmall other →
            is_marked self.new other ≡ (is_marked self.old other || same_vertex other vertex) }
    {
        match vertex {
            Vertex::Source => self.source = true,
            Vertex::Up(p) => mark_one(&mut self.up, p),
            Vertex::Down(p) => mark_one(&mut self.down, p),
            Vertex::Zone(p, zone) => mark_one(&mut self.zones[usize::from(p)], zone),
            Vertex::Node(node) => mark_one(&mut self.nodes, node),
            Vertex::Sink => self.sink = true,
        }
    }

    fn has(&self, vertex: Vertex) -> bool
        ensures { result ≡ is_marked self.now vertex }
    {
        match vertex {
            Vertex::Source => self.source,
            Vertex::Up(p) => self.up[usize::from(p)],
            Vertex::Down(p) => self.down[usize::from(p)],
            Vertex::Zone(p, zone) => self.zones[usize::from(p)][usize::from(zone)],
            Vertex::Node(node) => self.nodes[usize::from(node)],
            Vertex::Sink => self.sink,
        }
    }
}

/// Vertices as a set: those of a list, with their marks.
#[derive(Drop)]
pub struct Marked<'a> {
    pub vertices: &'a [Vertex],
    table: Table,
    pub ghost made: { Marks table vertices.now },
}

impl<'a> Marked<'a> {
    pub fn new(vertices: &'a [Vertex]) -> Marked<'a>
        ensures { result.vertices.now ≡ vertices.now }
    {
        let mut table = Table {
            source: false,
            sink: false,
            up: [false; 256],
            down: [false; 256],
            zones: [[false; 256]; 256],
            nodes: [false; 256],
        };
        for vertex in vertices {
            table.mark(*vertex);
        }
        Marked { vertices, table }
    }

    /// Whether the list has the vertex.
    pub fn has(&self, vertex: Vertex) -> bool
        ensures { result ≡ set_of self.now.vertices.now vertex }
    {
        self.table.has(vertex)
    }
}
