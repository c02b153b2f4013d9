ghost use Rattle.sb_lex.specs.Tokens.{EachInputHasTokens, TokensAreUnique, TokensFollowEachPlace, TokensBehindAPlaceAreUnique, CallsGiveTokens, OneTokenAtAPlace, RefusalStays};

/// Laws of the tokens of an input: they are what is defined, and not what is computed.
#[inline(always)]
pub fn tokens_are_one_list()
    ensures exist { EachInputHasTokens }
    ensures unique { TokensAreUnique }
    ensures exist_from { TokensFollowEachPlace }
    ensures unique_from { TokensBehindAPlaceAreUnique }
    ensures by_calls { CallsGiveTokens }
    ensures one_at_a_place { OneTokenAtAPlace }
    ensures refusal_stays { RefusalStays }
{}
