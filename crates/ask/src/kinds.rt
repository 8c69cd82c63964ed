// What the first word of a line may say.
ghost use Rattle.std.specs.Result.{result_ok};
ghost use Rattle.ask.specs.Reading.{Says};

use plans::Way;
use std::str::FromStr;

#[derive(Clone, Copy, PartialEq, Eq, Debug)]
pub enum Kind {
    Diagonal,
    Table,
    Run(Way),
}

// A word that says none of these.
#[derive(Clone, Copy, PartialEq, Eq, Debug)]
pub struct NoKind;

impl FromStr for Kind {
    type Err = NoKind;

    ghost from_str_gives = { λ word kind. Says word (result_ok kind) };

    fn from_str(word: &str) -> Result<Kind, NoKind> {
        match word {
            "diagonal" => Ok(Kind::Diagonal),
            "table" => Ok(Kind::Table),
            "spacing" => Ok(Kind::Run(Way::EqualSpacing)),
            "rectangle" => Ok(Kind::Run(Way::WidestRectangle)),
            _ => Err(NoKind),
        }
    }
}
