// The kind of a step, told from its number: the one match on kind numbers, and the one match on kinds that says what their steps have.
ghost use Rattle.std.specs.Prelude.{◌≡◌, Ok};
ghost use Rattle.types.specs.Kinds.{kind_of, used_numbers, Names};
ghost use Rattle.types.specs.Rules.{Known, rules_of, rules_with, fourth_numbers};

#[derive(Clone, Copy, Debug, PartialEq, Eq)]
pub enum Kind {
    Add,
    Adopt,
    Learn,
    Wedge,
    Install,
    Inherit,
    CatchUp,
}

// Why a number is no kind's: it is kept for later, or unknown.
#[derive(Clone, Copy, Debug, PartialEq, Eq)]
pub enum NoKind {
    Kept,
    Unknown,
}

// What the steps of a kind have: how many numbers they use, the largest fourth number (0 where they use none), and whether the third number is the
// acting host. These are columns of the papers' table, in which 0 also bounds a fourth number that is not used.
#[derive(Clone, Copy, Debug, PartialEq, Eq)]
pub struct Rules {
    pub used: usize,
    pub fourth: u64,
    pub host: bool,
}

// The bits of learn, install, inherit and catch up, 3, 5, 6 and 7.
const FOURTHS: u64 = 232;

impl TryFrom<u64> for Kind {
    type Error = NoKind;

    ghost try_from_gives = { Names };

    // The kind that a number names.
    fn try_from(number: u64) -> Result<Self, NoKind> {
        match number {
            1 => Ok(Kind::Add),
            2 => Ok(Kind::Adopt),
            3 => Ok(Kind::Learn),
            4 => Ok(Kind::Wedge),
            5 => Ok(Kind::Install),
            6 => Ok(Kind::Inherit),
            7 => Ok(Kind::CatchUp),
            8..=31 => Err(NoKind::Kept),
            // 0 has an arm of its own, as the papers list the cases.
            0 => Err(NoKind::Unknown),
            _ => Err(NoKind::Unknown),
        }
    }
}

impl Kind {
    // What the steps of this kind have.
    #[tactic(auto, unfolding(crate::specs::Rules::rules_of, crate::specs::Rules::most_fourth, crate::specs::Kinds::used_numbers, crate::specs::Kinds::names_host))]
    pub fn rules(self) -> Rules
        ensures { result ≡ rules_of (Ok self) }
    {
        match self {
            Kind::Add => row(3, 0, false),
            Kind::Adopt => row(3, 0, true),
            Kind::Learn => row(4, 56, true),
            Kind::Wedge => row(3, 0, true),
            Kind::Install => row(4, 55, true),
            Kind::Inherit => row(4, 15, true),
            Kind::CatchUp => row(4, 15, true),
        }
    }

    // How many fourth numbers the kind of a known number has, 1 or 0, told without a branch: a bit is set for each kind that uses four.
    pub fn fourths(number: u64) -> u64
        requires { Known (kind_of number) }
        ensures { result ≡ fourth_numbers number }
    {
        (FOURTHS >> number) % 2
    }

    // How many numbers a step of this kind uses.
    #[tactic(auto, unfolding(crate::specs::Rules::rules_of))]
    pub fn used(self) -> usize
        ensures { result ≡ used_numbers (Ok self) }
    {
        self.rules().used
    }
}

// One row of the table of rules.
fn row(used: usize, fourth: u64, host: bool) -> Rules
    ensures { result ≡ rules_with used fourth host }
{
    Rules { used, fourth, host }
}
