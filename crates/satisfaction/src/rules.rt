// The rules of nodes, asked for one at a time.
ghost use Rattle.std.specs.Prelude.{◌≡◌, ◌+◌, ◌<◌, ◌≤◌, ℕ, List, length};
ghost use Rattle.satisfaction.specs.declared.nodes.Rule.{Rule as RuleValue};
ghost use Rattle.satisfaction.specs.Counters.{rule_at};

use super::nodes::Rule;

/// What says when each node is satisfied, as a plan's records do. A caller that counts how many records it looks at counts them
/// here.
pub trait Rules {
    /// What the rules are read off.
    type Source;

    /// What they are read off, which no look changes.
    ghost source: { Self → Self.Source };

    /// The rule of each node, by its number.
    ghost listed: { Self → List RuleValue };

    /// How many looks were taken.
    ghost looks: { Self → ℕ };

    /// The rule of a node. It takes one look at most.
    fn rule_of(&mut self, node: usize) -> Rule
        requires node { node < length (listed self.old) }
        ensures rule { result ≡ rule_at (listed self.old) node }
        ensures source { source self.new ≡ source self.old }
        ensures listed { listed self.new ≡ listed self.old }
        ensures fewest { looks self.old ≤ looks self.new }
        ensures most { looks self.new ≤ looks self.old + 1 };
}
