ghost use Rattle.std.specs.Option.{option_copied};
ghost use Rattle.std.specs.Prelude.{◌≡◌, map};
ghost use Rattle.xc_disjoint.specs.Leasts.{first_among};
ghost use Rattle.xc_disjoint.specs.Places.{first_in_roots, rule_by_port as by_port, rule_of_use};
ghost use Rattle.xc_kernel.specs.Uses as uses;
ghost use Rattle.xc_kernel.specs.Kernels.{branch_of, case_of, root_of, statement_of};
ghost use Rattle.xc_kernel.specs.Plain as plain;

use xc_kernel::{KBranch, KCase, KRes, Kst, PortUse, Root};
use xc_tree::earlier;
use xw_words::{Broken, Pos};

/// The first use of a port on a core other than its own, as rule 706, or this rule where it stands before.
pub fn first_elsewhere(ports: &[PortUse], roots: &[Root], best: Option<Broken>) -> Option<Broken>
    ensures { result ≡ first_in_roots ports.now best (map root_of roots.now) }
{
    let mut best = best;
    for root in roots {
        let here = Here {
            ports,
            core: root.core,
        };
        best = here.in_statements(best, root.body.as_slice());
    }
    best
}

/// The ports, and the core on which they are used.
#[derive(Clone, Copy)]
struct Here<'a> {
    ports: &'a [PortUse],
    core: u8,
}

impl<'a> Here<'a> {
    /// Goes on with the first such use through some statements.
    #[cycle(uses)]
    fn in_statements(&self, best: Option<Broken>, ss: &[Kst]) -> Option<Broken>
        ensures { result ≡ first_among (rule_of_use self.now.ports.now self.now.core) best
            (uses.of_statements (plain.statements (map statement_of ss.now))) }
    {
        let mut best = best;
        for s in ss {
            best = self.in_statement(best, s);
        }
        best
    }

    #[cycle(uses)]
    fn in_statement(&self, best: Option<Broken>, s: &Kst) -> Option<Broken>
        ensures { result ≡ first_among (rule_of_use self.now.ports.now self.now.core) best
            (uses.of_statement (statement_of s.now)) }
    {
        match s {
            Kst::Zero(_) => best,
            Kst::Set(_, _) => best,
            Kst::Out(output) => earlier(best, self.at_use(output.res, output.pos)),
            Kst::In(input) => earlier(best, self.at_use(input.res, input.pos)),
            Kst::If(_, first, second) => {
                let best = self.in_statements(best, first.as_slice());
                self.in_statements(best, second.as_slice())
            }
            Kst::Loop(_, body, next) => {
                let best = self.in_statements(best, body.as_slice());
                self.in_statements(best, next.as_slice())
            }
            Kst::Block(_, body) => self.in_statements(best, body.as_slice()),
            Kst::Exit(_) => best,
            Kst::Select(select) => {
                let best = self.in_cases(best, select.cases.as_slice());
                match &select.otherwise {
                    None => best,
                    Some(body) => self.in_statements(best, body.as_slice()),
                }
            }
            Kst::Par(branches) => self.in_branches(best, branches.as_slice()),
            Kst::Tran { body, .. } => self.in_statements(best, body.as_slice()),
        }
    }

    #[cycle(uses)]
    fn in_cases(&self, best: Option<Broken>, cases: &[KCase]) -> Option<Broken>
        ensures { result ≡ first_among (rule_of_use self.now.ports.now self.now.core) best
            (uses.of_cases (plain.cases (map case_of cases.now))) }
    {
        let mut best = best;
        for c in cases {
            best = self.in_case(best, c);
        }
        best
    }

    #[cycle(uses)]
    fn in_case(&self, best: Option<Broken>, c: &KCase) -> Option<Broken>
        ensures { result ≡ first_among (rule_of_use self.now.ports.now self.now.core) best
            (uses.of_case (case_of c.now)) }
    {
        let best = earlier(best, self.at_use(c.head.res, c.head.pos));
        self.in_statements(best, c.body.as_slice())
    }

    #[cycle(uses)]
    fn in_branches(&self, best: Option<Broken>, branches: &[KBranch]) -> Option<Broken>
        ensures { result ≡ first_among (rule_of_use self.now.ports.now self.now.core) best
            (uses.of_branches (plain.branches (map branch_of branches.now))) }
    {
        let mut best = best;
        for b in branches {
            best = self.in_branch(best, b);
        }
        best
    }

    #[cycle(uses)]
    fn in_branch(&self, best: Option<Broken>, b: &KBranch) -> Option<Broken>
        ensures { result ≡ first_among (rule_of_use self.now.ports.now self.now.core) best
            (uses.of_branch (branch_of b.now)) }
    {
        self.in_statements(best, b.body.as_slice())
    }

    /// The rule that a use breaks.
    #[tactic(auto, unfolding(crate::specs::Places::rule_of_use))]
    fn at_use(&self, resource: KRes, pos: Pos) -> Option<Broken>
        ensures { result ≡ rule_of_use self.now.ports.now self.now.core
            (record { resource = resource; pos = pos }) }
    {
        match resource {
            KRes::Port(n) => rule_by_port(self.ports.get(n as usize), self.core, pos),
            KRes::Timer(_) => None,
            KRes::Chan(_) => None,
        }
    }
}

/// The rule that is broken where a port is used on a core.
fn rule_by_port(port: Option<&PortUse>, core: u8, pos: Pos) -> Option<Broken>
    ensures { result ≡ by_port core pos (option_copied port.entry) }
{
    match port {
        None => None,
        Some(port) => {
            if port.core == core {
                None
            } else {
                Some(Broken { rule: 706, pos })
            }
        }
    }
}
