//! Numbers that fall along each edge of a graph, or a circle of edges.

use crate::edges::Edge;
use std::alloc::{AllocError, Global};

/// The edges that leave a node.
#[derive(Drop)]
pub struct Node {
    pub edges: Vec<Edge>,
}

// How far a node is gone through.
#[derive(Clone, Copy, PartialEq)]
enum Progress {
    Unmet,
    // it is on the path
    Open,
    Done,
}

// A node on the path, and how many of its edges were followed.
#[derive(Clone, Copy)]
struct Open {
    node: usize,
    followed: usize,
}

#[derive(Drop)]
struct Walk {
    progress: Vec<Progress>,
    numbers: Vec<u32>,
    // the number of the node that is done next
    next: u32,
    path: Vec<Open>,
    // the node from which the walk begins anew where no path is open
    start: usize,
}

/// What a search found: numbers, which fall along each edge where there is no circle, and else the first one.
#[derive(Drop)]
pub struct Searched {
    pub numbers: Vec<u32>,
    pub circle: Vec<Edge>,
}

impl Walk {
    fn new(alloc: Global, many: usize) -> Result<Walk, AllocError> {
        Ok(Walk {
            progress: vec![in alloc; Progress::Unmet; many]?,
            numbers: vec![in alloc; 0; many]?,
            next: 1,
            path: Vec::new(alloc),
            start: 0,
        })
    }

    fn progress_of(&self, node: usize) -> Progress {
        match self.progress.get(node) {
            Some(progress) => *progress,
            None => Progress::Done,
        }
    }

    // Puts a node at the end of the path.
    fn open(&mut self, node: usize) -> Result<(), AllocError> {
        if node < self.progress.len() {
            self.progress[node] = Progress::Open;
            self.path.push(Open { node, followed: 0 })?;
        }
        Ok(())
    }

    // Takes the last node off the path: all that its edges lead to is done, and has a lower number.
    fn close(&mut self, node: usize) {
        self.path.pop();
        if node < self.progress.len() && node < self.numbers.len() {
            self.progress[node] = Progress::Done;
            self.numbers[node] = self.next;
            self.next = self.next.saturating_add(1);
        }
    }

    // Begins at the next node that wasn't met. It answers whether there may be more.
    fn begin(&mut self) -> Result<bool, AllocError> {
        let node = self.start;
        if node >= self.progress.len() {
            return Ok(false);
        }
        self.start = node.saturating_add(1);
        if self.progress_of(node) == Progress::Unmet {
            self.open(node)?;
        }
        Ok(true)
    }

    // Notes that one edge more of the last node was followed.
    fn advance(&mut self) {
        if let Some(last) = self.path.last_mut() {
            last.followed = last.followed.saturating_add(1);
        }
    }
}

// The edge by which a node of the path was left.
fn edge_left_by(graph: &[Node], open: Open) -> Option<Edge> {
    if open.followed == 0 {
        return None;
    }
    match graph.get(open.node) {
        Some(node) => node.edges.get(open.followed - 1).copied(),
        None => None,
    }
}

// The edges of the path from a node on, which the last of them leads to.
fn circle_from(
    alloc: Global,
    graph: &[Node],
    path: &[Open],
    node: usize,
) -> Result<Vec<Edge>, AllocError> {
    let mut circle = Vec::new(alloc);
    let mut is_on = false;
    for open in path {
        is_on = is_on || open.node == node;
        if is_on {
            if let Some(edge) = edge_left_by(graph, *open) {
                circle.push(edge)?;
            }
        }
    }
    Ok(circle)
}

// How a step of the walk ends.
#[derive(Drop)]
enum Stepped {
    On,
    End,
    Circle(Vec<Edge>),
}

// Follows an edge of the last node.
fn follow(
    alloc: Global,
    graph: &[Node],
    walk: &mut Walk,
    to: usize,
) -> Result<Stepped, AllocError> {
    walk.advance();
    match walk.progress_of(to) {
        Progress::Unmet => {
            walk.open(to)?;
            Ok(Stepped::On)
        }
        Progress::Open => {
            let circle = circle_from(alloc, graph, walk.path.as_slice(), to)?;
            Ok(Stepped::Circle(circle))
        }
        Progress::Done => Ok(Stepped::On),
    }
}

// The next edge of a node on the path.
fn edge_of(graph: &[Node], open: Open) -> Option<Edge> {
    match graph.get(open.node) {
        Some(node) => node.edges.get(open.followed).copied(),
        None => None,
    }
}

// One step: an edge is followed, or a node is done, or the walk begins at another.
fn step(alloc: Global, graph: &[Node], walk: &mut Walk) -> Result<Stepped, AllocError> {
    match walk.path.last().copied() {
        Some(open) => match edge_of(graph, open) {
            Some(edge) => follow(alloc, graph, walk, edge.to),
            None => {
                walk.close(open.node);
                Ok(Stepped::On)
            }
        },
        None => {
            if walk.begin()? {
                return Ok(Stepped::On);
            }
            Ok(Stepped::End)
        }
    }
}

// How many steps a walk has at most: each node begins one, each is done once, and each edge is followed once.
fn most_steps(graph: &[Node]) -> usize {
    let mut most: usize = 1;
    for node in graph {
        most = most.saturating_add(2).saturating_add(node.edges.len());
    }
    most
}

/// Goes through a graph, along each edge once.
pub fn search(alloc: Global, graph: &[Node]) -> Result<Searched, AllocError> {
    let mut walk = Walk::new(alloc, graph.len())?;
    for _ in 0..most_steps(graph) {
        match step(alloc, graph, &mut walk)? {
            Stepped::On => {}
            Stepped::End => break,
            Stepped::Circle(circle) => {
                return Ok(Searched {
                    numbers: walk.numbers,
                    circle,
                });
            }
        }
    }
    Ok(Searched {
        numbers: walk.numbers,
        circle: Vec::new(alloc),
    })
}
