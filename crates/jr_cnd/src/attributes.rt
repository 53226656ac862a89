// The attributes of an item.
ghost use Rattle.std.specs.Prelude.{◌≡◌};
ghost use Rattle.jr_cnd.specs.Grammar.{addable, item_attribute_more, item_attributes_at, item_word_first, item_word_in, may_add, opv_of, with_item_word};
ghost use Rattle.jr_cnd.specs.Reading.{Reads};

use crate::NoCnd;
use crate::cursor::Cursor;
use crate::words::{ItemWord, item_word};
use cnd_pieces::{Placed, Says, Sign};
use jr_types::OnParentVersion;

/// The attributes of an item that were read.
#[derive(Clone, Copy)]
pub struct ItemAttributes {
    pub mandatory: bool,
    pub autocreated: bool,
    pub protected: bool,
    pub multiple: bool,
    pub opv: Option<OnParentVersion>,
}

const NO_ATTRIBUTES: ItemAttributes = ItemAttributes {
    mandatory: false,
    autocreated: false,
    protected: false,
    multiple: false,
    opv: None,
};

impl ItemAttributes {
    // What a check-in of the parent does with the item.
    pub(crate) fn opv(self) -> OnParentVersion
        ensures { result ≡ opv_of self }
    {
        match self.opv {
            Some(opv) => opv,
            None => OnParentVersion::Copy,
        }
    }

    // Whether the attribute may stand behind these, of a property or of a child.
    fn may_add(self, of_property: bool, word: ItemWord) -> bool
        ensures { result ≡ may_add of_property self word }
    {
        match word {
            ItemWord::Mandatory => !self.mandatory,
            ItemWord::Autocreated => !self.autocreated,
            ItemWord::Protected => !self.protected,
            ItemWord::Multiple => of_property && !self.multiple,
            ItemWord::Opv(_) => self.opv.is_none(),
        }
    }

    fn with(self, word: ItemWord) -> ItemAttributes
        ensures { result ≡ with_item_word self word }
    {
        match word {
            ItemWord::Mandatory => ItemAttributes {
                mandatory: true,
                ..self
            },
            ItemWord::Autocreated => ItemAttributes {
                autocreated: true,
                ..self
            },
            ItemWord::Protected => ItemAttributes {
                protected: true,
                ..self
            },
            ItemWord::Multiple => ItemAttributes {
                multiple: true,
                ..self
            },
            ItemWord::Opv(opv) => ItemAttributes {
                opv: Some(opv),
                ..self
            },
        }
    }

    fn addable(self, of_property: bool, word: Option<ItemWord>) -> Option<ItemWord>
        ensures { result ≡ addable of_property self word }
    {
        match word {
            Some(word) => {
                if self.may_add(of_property, word) {
                    Some(word)
                } else {
                    None
                }
            }
            None => None,
        }
    }

    // The attribute that comes next, where it may stand behind these.
    fn next(self, of_property: bool, pieces: &[Placed]) -> Option<ItemWord>
        ensures { result ≡ item_word_first of_property self pieces.now }
    {
        match pieces {
            [piece, ..] => self.addable(of_property, item_word_in(&piece.says)),
            [] => None,
        }
    }
}

// The attribute that a token is.
fn item_word_in(says: &Says) -> Option<ItemWord>
    ensures { result ≡ item_word_in says.now }
{
    match says {
        Says::Name(word) => item_word(word.as_str()),
        Says::Sign(Sign::Star) => Some(ItemWord::Multiple),
        _ => None,
    }
}

impl<'a> Cursor<'a> {
    // A further attribute, which may stand behind these.
    fn item_attribute(
        &mut self,
        of_property: bool,
        attributes: ItemAttributes,
    ) -> Result<ItemAttributes, NoCnd>
        ensures { Reads result self.new (item_attribute_more of_property attributes self.old) }
    {
        match attributes.next(of_property, self.pieces) {
            Some(word) => {
                self.advance();
                Ok(attributes.with(word))
            }
            None => Err(self.fault()),
        }
    }

    // The attributes of a property or of a child.
    pub(crate) fn item_attributes(&mut self, of_property: bool) -> Result<ItemAttributes, NoCnd>
        ensures { Reads result self.new (item_attributes_at of_property self.old) }
    {
        let mut attributes = NO_ATTRIBUTES;
        let mut turns = self.pieces;
        while let [_, more @ ..] = turns {
            if attributes.next(of_property, self.pieces).is_none() {
                break;
            }
            turns = more;
            attributes = self.item_attribute(of_property, attributes)?;
        }
        Ok(attributes)
    }
}
