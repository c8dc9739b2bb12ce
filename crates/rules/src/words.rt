// The words of the product: trainees, practices, moves and refusals.
ghost use Rattle.std.specs.Prelude.{◌≡◌};
ghost use Rattle.rules.specs.Words.{number_of, word_of};

/// A trainee, by number from 0.
#[derive(Clone, Copy, PartialEq, Eq, Debug, Default)]
pub struct Trainee(pub u16);

/// A practice, by number from 0.
#[derive(Clone, Copy, PartialEq, Eq, Debug, Default)]
pub struct Practice(pub u16);

/// A move: a trainee, the seat left and the practice taken.
#[derive(Clone, Copy, PartialEq, Eq, Debug, Default)]
pub struct Move {
    pub trainee: Trainee,
    pub left: Option<Practice>,
    pub taken: Practice,
}

/// The layer that first gave a refusal.
#[derive(Clone, Copy, PartialEq, Eq, Debug)]
pub enum Layer {
    Sheet,
    Register,
    Round,
}

/// Why a call is refused.
#[derive(Clone, Copy, PartialEq, Eq, Debug)]
pub enum Reason {
    /// The bytes end within something promised.
    SheetEnds,
    /// Bytes follow the last section.
    BytesFollow,
    /// A count is above its bound, or a filed count is neither 0 nor the trainees.
    CountOutOfBounds,
    /// Places are not 1 to 400.
    PlacesOutOfBounds,
    /// No such practice, or one that is not open.
    PracticeNotOffered,
    /// A list names a practice twice.
    Repeated,
    /// There is no such trainee.
    NoSuchTrainee,
    /// There is no such practice to be changed.
    NoSuchPractice,
    /// Memory is too short, or a placement has the wrong length.
    WrongLength,
    /// Every feasible placement is beaten.
    NoneUnbeaten,
    /// No placement stands.
    NothingStands,
    /// The offered placement is not feasible.
    NotFeasible,
}

/// A refusal: why, by which layer, and at which place.
#[derive(Clone, Copy, PartialEq, Eq, Debug)]
pub struct Refusal {
    pub reason: Reason,
    pub layer: Layer,
    pub place: usize,
}

// The number by which a reason is known outside.
impl From<Reason> for u8 {
    ghost from_gives = { λ reason n. n ≡ number_of reason };

    fn from(reason: Reason) -> u8 {
        match reason {
            Reason::SheetEnds => 1,
            Reason::BytesFollow => 2,
            Reason::CountOutOfBounds => 3,
            Reason::PlacesOutOfBounds => 4,
            Reason::PracticeNotOffered => 5,
            Reason::Repeated => 6,
            Reason::NoSuchTrainee => 7,
            Reason::NoSuchPractice => 8,
            Reason::WrongLength => 9,
            Reason::NoneUnbeaten => 10,
            Reason::NothingStands => 11,
            Reason::NotFeasible => 12,
        }
    }
}

impl Layer {
    // The word by which the layer is known outside. No Display: a text takes bytes and cannot fail, and a `write!` may.
    pub fn word(self) -> &'static str
        ensures { result.now ≡ word_of self }
    {
        match self {
            Layer::Sheet => "sheet",
            Layer::Register => "register",
            Layer::Round => "round",
        }
    }

    // The refusal that this layer gives.
    pub fn refusal(self, reason: Reason, place: usize) -> Refusal
        ensures { result ≡ record { reason = reason; layer = self; place = place } }
    {
        Refusal {
            reason,
            layer: self,
            place,
        }
    }
}
